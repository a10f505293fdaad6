// A double's numeral, by a speller, into a sink.
#![tactic(auto)]

ghost use Rattle.numbers.specs.Sent.{Sent};

use sink::{Sink, put_all};
use speller::spelling::{LONGEST_NUMERAL, Speller};

pub mod fault;

use fault::NumberFault;

// The scratch is lent, since there is no heap. It holds any numeral, so a speller's only refusal is that there is none.
pub fn put_number<S: Speller, K: Sink>(
    speller: &S,
    bits: u64,
    scratch: &mut [u8; LONGEST_NUMERAL],
    sink: &mut K,
) -> Result<(), NumberFault>
    ensures { Sent K.Sink.means sink.old (S.Speller.means speller.now bits) result sink.new }
{
    let _ = S::most();
    let n = speller.spell(bits, scratch)?;
    put_all(sink, &scratch[0..n])?;
    Ok(())
}
