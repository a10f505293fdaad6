// Text rows and numeral rows.
ghost use Rattle.std.specs.Prelude.{◌≡◌, ℕ, ◌+◌, ◌*◌, ◌<◌, ◌≤◌, true, length, is_ok};
ghost use Rattle.dump.specs.Rules.{any_below};
ghost use Rattle.dump.specs.Raws.{bytes};
ghost use Rattle.dump.specs.Texts.{text_units};
ghost use Rattle.dump.specs.Places.{text_of, text_run};
ghost use Rattle.rules.specs.Texts.{text_row, text_rows, same_numeral, numeral_row, numeral_rows, TextsSound, Marked};

use super::each::each;
use dump::raw::Raw;
use dump::refusal::{Refusal, Rule, Site};
use dump::row::Run;
use dump::text::Text;
use numeral::numerals::{is_bigint, is_pair};
use numeral::texts::before;

// Its rules in their order, here and of other rows: in a list each would be a `&dyn Fn`, and no plainer.
fn text_row(raw: &Raw<'_>, i: usize) -> Result<(), Refusal>
    requires { i < raw.now.layout.texts.count }
    ensures { result ≡ text_row (bytes raw.now) raw.now.layout i }
{
    let first = raw.first(i);
    if first != raw.begin(i) || first + raw.count(i) > raw.layout.units.count {
        return Err(Refusal::at(Rule::Place, Site::Texts, i));
    }
    // Here the text and the one before it lie in the dump.
    if i > 0
        && !before(
            Text::new(raw.dump, raw.text(i - 1)),
            Text::new(raw.dump, raw.text(i)),
        )
    {
        return Err(Refusal::at(Rule::Order, Site::Texts, i));
    }
    Ok(())
}

pub fn text_rows(raw: &Raw<'_>) -> Result<(), Refusal>
    ensures { result ≡ text_rows (bytes raw.now) raw.now.layout }
{
    each(raw.layout.texts.count, |i| text_row(raw, i))
}

// A dump whose text rows keep their rules.
#[derive(Clone, Copy)]
pub struct Texts<'a> {
    pub raw: Raw<'a>,
    ghost sound: { TextsSound raw },
}

impl<'a> Texts<'a> {
    // Where the units of a text stand, which lie in the dump.
    pub fn run(&self, i: usize) -> Run
        requires { i < self.now.raw.layout.texts.count }
        ensures is { result ≡ text_run (bytes self.now.raw) self.now.raw.layout i }
        ensures fits { result.start + result.count * 2 ≤ length (bytes self.now.raw) }
    {
        self.raw.text(i)
    }

    // The units of a text.
    pub fn text(&self, i: usize) -> Text<'a>
        requires { i < self.now.raw.layout.texts.count }
        ensures { text_units result ≡ text_of (bytes self.now.raw) self.now.raw.layout i }
    {
        Text::new(self.raw.dump, self.run(i))
    }

    // The numeral rows `i` and `k` have one text or one double.
    fn same_numeral(&self, i: usize, k: usize) -> bool
        requires { (i < self.now.raw.layout.numerals.count) × (k < self.now.raw.layout.numerals.count) }
        ensures { result ≡ same_numeral (bytes self.now.raw) self.now.raw.layout i k }
    {
        let raw = &self.raw;
        raw.numeral_text(i) == raw.numeral_text(k) || raw.numeral_bits(i) == raw.numeral_bits(k)
    }

    // With no heap there is no table of the rows that came before, so they are gone over, as keys are.
    #[inline(never)]
    fn repeated(&self, i: usize) -> bool
        requires { i < self.now.raw.layout.numerals.count }
        ensures { result ≡ any_below (same_numeral (bytes self.now.raw) self.now.raw.layout i) i }
    {
        (0..i).any(|k| self.same_numeral(i, k))
    }

    fn numeral_row(&self, i: usize) -> Result<(), Refusal>
        requires { i < self.now.raw.layout.numerals.count }
        ensures { result ≡ numeral_row (bytes self.now.raw) self.now.raw.layout i }
    {
        let text = self.raw.numeral_text(i);
        if text >= self.raw.layout.texts.count {
            return Err(Refusal::at(Rule::Place, Site::Numerals, i));
        }
        if !is_pair(self.text(text), self.raw.numeral_bits(i)) || self.repeated(i) {
            return Err(Refusal::at(Rule::Numeral, Site::Numerals, i));
        }
        Ok(())
    }

    pub fn numeral_rows(&self) -> Result<(), Refusal>
        ensures { result ≡ numeral_rows (bytes self.now.raw) self.now.raw.layout }
    {
        each(self.raw.layout.numerals.count, |i| self.numeral_row(i))
    }

    // Tells of each text whether it is that of a BigInt.
    pub fn mark(&self, flags: &mut [bool; 8192])
        ensures { Marked self.now.raw flags.new }
    {
        for (i, flag) in flags[..self.raw.layout.texts.count].iter_mut().enumerate() {
            *flag = is_bigint(self.text(i));
        }
    }
}
