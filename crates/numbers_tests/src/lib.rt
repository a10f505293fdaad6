// Callers of `put_number` at either end, with any speller.
#![tactic(auto)]

ghost use Rattle.std.specs.Prelude.{length};
ghost use Rattle.numbers_tests.specs.Held.{Counted};

use numbers::fault::NumberFault;
use numbers::put_number;
use sink::{Counter, Page};
use speller::spelling::{LONGEST_NUMERAL, Speller};

#[cfg(test)]
mod tests;

// How many bytes a number takes, in a counter with so much space.
pub fn count_number<S: Speller>(speller: &S, bits: u64, space: u64) -> Result<u64, NumberFault>
    ensures { Counted (S.Speller.means speller.now bits) space result }
{
    let mut scratch = [0u8; LONGEST_NUMERAL];
    let mut counter = Counter::new(space);
    put_number(speller, bits, &mut scratch, &mut counter)?;
    Ok(counter.count())
}

// How many bytes of lent memory a number takes, as a page. One function for both ends would need a trait
// with what is counted at each.
pub fn page_number<S: Speller>(
    speller: &S,
    bits: u64,
    memory: &mut [u8],
) -> Result<usize, NumberFault>
    ensures { Counted (S.Speller.means speller.now bits) (length memory.old) result }
{
    let mut scratch = [0u8; LONGEST_NUMERAL];
    let mut page = Page::new(memory);
    put_number(speller, bits, &mut scratch, &mut page)?;
    Ok(page.len())
}
