// The speller of whole numbers.
ghost use Rattle.std.specs.Prelude.{◌≡◌, ◌<◌, ◌≤◌, ◌++◌, length, drop, IfSome};
ghost use Rattle.speller.specs.Whole.{numeral_of, plain, size_of, whole, Wholes};

use super::decimal::put_decimal;
use super::fault::SpellFault;
use super::spelling::Speller;
use numeral::numerals::{LAST_WHOLE, SIGN};
use std::num::{f64_from_bits_with_nan, saturating_f64_to_u64};

// Which whole numbers are spelled.
const LIMIT: u64 = LAST_WHOLE;

// Spells every whole number below 2^53 in size, and minus zero as `-0`.
pub struct Whole;

fn without_sign(bits: u64) -> u64
    ensures is { result ≡ plain bits }
    ensures small { result < 9223372036854775808 }
{
    if bits >= SIGN { bits - SIGN } else { bits }
}

// The whole number up to the limit that the double is, but for its sign.
fn size_of(bits: u64) -> Option<u64>
    ensures is { result ≡ size_of bits }
    ensures small { IfSome result (λ n. n ≤ 9007199254740991) }
{
    let x = f64_from_bits_with_nan(without_sign(bits));
    let n = saturating_f64_to_u64(x);
    // By `then_some` was tried: that it gives this number did not close.
    if n <= LIMIT && n as f64 == x {
        Some(n)
    } else {
        None
    }
}

// Writes the number to the front, and tells how long it is. The sign is apart: `-0` is no integer.
#[tactic(auto, using(crate::proofs::Decimals::decimal_short))]
#[inline(always)]
fn put_whole(negative: bool, n: u64, buffer: &mut [u8]) -> usize
    requires { (n ≤ 9007199254740991) × (17 ≤ length buffer.old) }
    ensures long { result ≡ length (numeral_of negative n) }
    ensures short { result ≤ 17 }
    ensures written { buffer.new ≡ numeral_of negative n ++ drop result buffer.old }
{
    if negative {
        buffer[0] = b'-';
        put_decimal(n, 1, buffer)
    } else {
        put_decimal(n, 0, buffer)
    }
}

impl Speller for Whole {
    const LONGEST: usize = 17;

    ghost means = { λ _ b. whole b };

    ghost most = { 17 };

    fn most() -> usize {
        Self::LONGEST
    }

    #[inline(always)]
    fn spell(&self, bits: u64, buffer: &mut [u8]) -> Result<usize, SpellFault> {
        if buffer.len() < Self::LONGEST {
            return Err(SpellFault::Short);
        }
        let Some(n) = size_of(bits) else {
            return Err(SpellFault::Unspelled);
        };
        Ok(put_whole(bits >= SIGN, n, buffer))
    }

    fn distinct(&self) {}

    fn shaped(&self) {}
}

impl Whole {
    // Promises that the numerals are those of the whole numbers below 2^53 in size, and no others.
    #[tactic(auto, using(crate::proofs::Wholes::wholes))]
    pub fn exact(&self)
        ensures { Wholes whole }
    {}
}
