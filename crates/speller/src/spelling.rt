// The trait of spellers, and what holds of each.
ghost use Rattle.std.specs.Prelude.{◌≡◌, ℕ, ◌≤◌, List, Option};
ghost use Rattle.speller.specs.Spelling.{Spells, Found, Distinct, Shaped, Lawful};

use super::fault::SpellFault;

// No lawful numeral is longer.
pub use numeral::numerals::LONGEST_NUMERAL;

pub trait Speller {
    // The length of the longest numeral.
    const LONGEST: usize;

    // The numeral, in ASCII, of the double with some bits, if it has one.
    ghost means: { Self → ℕ → Option (List ℕ) };

    // `LONGEST`, as the clauses cite it: an impl with a lifetime cannot tie its constant to a ghost
    // member of the same name, so `most` does.
    ghost most: { ℕ };

    // `LONGEST`, with its promise, for code that knows a speller only by this trait.
    fn most() -> usize
        ensures is { result ≡ most }
        ensures bound { most ≤ 400 };

    // Writes the numeral to the front of the buffer, and tells its length, as `Read::read` does. A buffer that is too
    // short for the longest numeral is refused first, whatever the bits. Each impl has its own body: one
    // for all would want a type for what was found, and two more functions with promises.
    fn spell(&self, bits: u64, buffer: &mut [u8]) -> Result<usize, SpellFault>
        ensures { Spells (means self.now bits) most buffer.old result buffer.new };

    // Promises that no numeral occurs twice. This and the next are calls and no laws: a law would range over values that
    // no speller of the type has, as a field that is larger than its type.
    fn distinct(&self)
        ensures { Distinct (means self.now) };

    // Promises that each numeral may be given for its double.
    fn shaped(&self)
        ensures { Shaped (means self.now) };
}

// Both promises of a speller.
pub fn lawful<S: Speller>(speller: &S)
    ensures { Lawful (S.Speller.means speller.now) }
{
    speller.distinct();
    speller.shaped();
}

// Writes the numeral to the front of `scratch`, and tells its length, as `Read::read` does: of a
// buffer that is lent on in the result, the clause could not say what it holds afterwards.
pub fn numeral_of<S: Speller>(
    speller: &S,
    bits: u64,
    scratch: &mut [u8; LONGEST_NUMERAL],
) -> Option<usize>
    ensures { Found (S.Speller.means speller.now bits) scratch.old result scratch.new }
{
    // Its promise is that the scratch is too short for no numeral, so the one refusal is that there is none.
    let _ = S::most();
    speller.spell(bits, scratch).ok()
}
