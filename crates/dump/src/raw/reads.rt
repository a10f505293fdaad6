// Reading the rows of a dump in place.
ghost use Rattle.std.specs.Prelude.{◌≡◌, ℕ, ◌+◌, ◌*◌, ◌^◌, ◌<◌, ◌≤◌, length};
ghost use Rattle.dump.specs.Raws.{bytes};
ghost use Rattle.dump.specs.Places.{first_of, count_of, begin_of, text_run, cell_at, numeral_bits, numeral_text, row_at, key_at, value_at, root_at};

use super::super::bytes::{joined, word};
use super::super::row::{Cell, Row, Run};
use super::Raw;

// Each names another word of a row, and asks for an index in range as a slice's index does: one function
// with the place of the word as a parameter would say less. The results go on as `usize`, so that they are below 2^32 is
// a clause; `usize` has no `From<u32>`, so they are widened by `as`, which is proved to lose nothing.
impl Raw<'_> {
    // The first unit of a text.
    pub fn first(&self, i: usize) -> usize
        requires { i < self.now.layout.texts.count }
        ensures { (result ≡ first_of (bytes self.now) self.now.layout i) × (result < 2 ^ 32) }
    {
        word(self.dump, self.layout.texts.start + i * 8) as usize
    }

    // How many units a text has.
    pub fn count(&self, i: usize) -> usize
        requires { i < self.now.layout.texts.count }
        ensures { (result ≡ count_of (bytes self.now) self.now.layout i) × (result < 2 ^ 32) }
    {
        word(self.dump, self.layout.texts.start + i * 8 + 4) as usize
    }

    // Where the units of the texts before `i` end.
    pub fn begin(&self, i: usize) -> usize
        requires { i ≤ self.now.layout.texts.count }
        ensures { result ≡ begin_of (bytes self.now) self.now.layout i }
    {
        if i == 0 {
            0
        } else {
            self.first(i - 1) + self.count(i - 1)
        }
    }

    // The units of a text.
    pub fn text(&self, i: usize) -> Run
        requires { i < self.now.layout.texts.count }
        ensures { result ≡ text_run (bytes self.now) self.now.layout i }
    {
        Run {
            start: self.layout.units.start + self.first(i) * 2,
            count: self.count(i),
        }
    }

    // The bits of the double of a numeral row.
    pub fn numeral_bits(&self, i: usize) -> u64
        requires { i < self.now.layout.numerals.count }
        ensures { result ≡ numeral_bits (bytes self.now) self.now.layout i }
    {
        let p = self.layout.numerals.start + i * 12;
        joined(word(self.dump, p), word(self.dump, p + 4))
    }

    // The number of the text of a numeral row.
    pub fn numeral_text(&self, i: usize) -> usize
        requires { i < self.now.layout.numerals.count }
        ensures { (result ≡ numeral_text (bytes self.now) self.now.layout i) × (result < 2 ^ 32) }
    {
        word(self.dump, self.layout.numerals.start + i * 12 + 8) as usize
    }

    // An object's row. `array::from_fn` would give an array of words: that each is the word at its place did not close.
    pub fn row(&self, i: usize) -> Row
        requires { i < self.now.layout.objects.count }
        ensures { result ≡ row_at (bytes self.now) self.now.layout i }
    {
        let p = self.layout.objects.start + i * 24;
        Row {
            kind: word(self.dump, p),
            a: word(self.dump, p + 4),
            b: word(self.dump, p + 8),
            c: word(self.dump, p + 12),
            d: word(self.dump, p + 16),
            e: word(self.dump, p + 20),
        }
    }

    // The value whose three words begin at the byte `p`.
    fn cell(&self, p: usize) -> Cell
        requires { p + 12 ≤ length (bytes self.now) }
        ensures { result ≡ cell_at (bytes self.now) p }
    {
        Cell {
            tag: word(self.dump, p),
            low: word(self.dump, p + 4),
            high: word(self.dump, p + 8),
        }
    }

    // The key of a part.
    pub fn key(&self, p: usize) -> Cell
        requires { p < self.now.layout.parts.count }
        ensures { result ≡ key_at (bytes self.now) self.now.layout p }
    {
        self.cell(self.layout.parts.start + p * 24)
    }

    // The value of a part.
    pub fn value(&self, p: usize) -> Cell
        requires { p < self.now.layout.parts.count }
        ensures { result ≡ value_at (bytes self.now) self.now.layout p }
    {
        self.cell(self.layout.parts.start + p * 24 + 12)
    }

    // The root.
    pub fn root(&self) -> Cell
        ensures { result ≡ root_at (bytes self.now) self.now.layout }
    {
        self.cell(self.layout.root.start)
    }
}
