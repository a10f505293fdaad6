// The speller that a checked dump's own numerals make.
#![tactic(auto)]

ghost use Rattle.std.specs.Prelude.{◌≡◌, ◌<◌, ◌≤◌, ◌++◌, length, drop, slice_index_or};
ghost use Rattle.dump.specs.Heaps.{empty_numeral};
ghost use Rattle.heap_check.specs.Heaps.{model};
ghost use Rattle.table.specs.Tables.{numeral_in, Finds};

use heap_check::checked::Checked;
use numeral::numerals::LONGEST_NUMERAL;
use speller::fault::SpellFault;
use speller::spelling::Speller;

// Spells the doubles that have a numeral in the dump, and no others.
#[derive(Clone, Copy)]
pub struct Table<'a> {
    rows: Checked<'a>,
}

impl<'a> Table<'a> {
    pub fn new(rows: Checked<'a>) -> Table<'a>
        ensures { result.rows ≡ rows.entry }
    {
        Table { rows }
    }
}

impl Table<'_> {
    // The first row with these bits. The rows are in no order, and there is no heap for a table of them.
    fn find(&self, bits: u64) -> Option<usize>
        ensures { Finds (model self.now.rows).numerals bits result }
    {
        (0..self.rows.numerals()).find(|&i| self.rows.numeral_bits(i) == bits)
    }

    // Writes the digits of row `i` to the front, and tells how many they are.
    fn put(&self, i: usize, buffer: &mut [u8]) -> usize
        requires row { i < length (model self.now.rows).numerals }
        requires room { 400 ≤ length buffer.old }
        ensures long { result ≡ length (slice_index_or (model self.now.rows).numerals i empty_numeral).digits }
        ensures short { result ≤ 400 }
        ensures written { buffer.new ≡ (slice_index_or (model self.now.rows).numerals i empty_numeral).digits ++ drop result buffer.old }
    {
        let text = self.rows.numeral_digits(i);
        // A `zip` with the units was tried: of what it writes the proof knows nothing.
        for (k, byte) in buffer[..text.len()].iter_mut().enumerate() {
            *byte = text.unit(k) as u8;
        }
        text.len()
    }
}

impl Speller for Table<'_> {
    const LONGEST: usize = LONGEST_NUMERAL;

    ghost means = { λ t. numeral_in (model t.rows).numerals };

    ghost most = { 400 };

    // The clauses of the trait, which an impl with a lifetime has to write out.
    fn most() -> usize
        ensures is { result ≡ 400 }
        ensures bound { 400 ≤ 400 }
    {
        Self::LONGEST
    }

    fn spell(&self, bits: u64, buffer: &mut [u8]) -> Result<usize, SpellFault> {
        if buffer.len() < Self::LONGEST {
            return Err(SpellFault::Short);
        }
        let Some(i) = self.find(bits) else {
            return Err(SpellFault::Unspelled);
        };
        Ok(self.put(i, buffer))
    }

    fn distinct(&self) {}

    fn shaped(&self) {}
}
