// Texts that are numbers, and the doubles that they may stand for.
ghost use Rattle.std.specs.Prelude.{◌≡◌, ◌≤◌, ◌==◌, position};
ghost use Rattle.std.specs.Option.{option_map};
ghost use Rattle.dump.specs.Texts.{text_units};
ghost use Rattle.numeral.specs.Numerals.{body as body_of, before_point, after_point, is_numeral, is_big_int, whole_of, whole_bits, finite as is_finite, is_double, minus, is_pair};

use super::digits::{first_is, is_zero, positive_digits, some_digits, whole_digits, whole_within};
use dump::text::{Text, unit};
use std::num::f64_to_bits_with_nan;

const MINUS: u16 = 45;

const POINT: u16 = 46;

// The bit that a double below zero has, and minus zero.
pub const SIGN: u64 = 0x8000_0000_0000_0000;

// The last whole number before 2^53: up to here each is a double, and no two are one.
pub const LAST_WHOLE: u64 = 9_007_199_254_740_991;

// How many units the numeral of a double has at most.
pub const LONGEST_NUMERAL: usize = 400;

// The text without its minus.
fn body(text: Text<'_>) -> Text<'_>
    ensures { text_units result ≡ body_of (text_units text.entry) }
{
    if first_is(text, MINUS) {
        Text {
            units: &text.units[1..],
        }
    } else {
        text
    }
}

// Where the first point is.
fn point(text: Text<'_>) -> Option<usize>
    ensures { result ≡ position (λ c. c == 46) (text_units text.entry) }
{
    text.units.iter().map(unit).position(|c| c == POINT)
}

// What comes before the first point, and what comes behind it if there is one.
#[tactic(auto, using(crate::proofs::Points::before_point_at, crate::proofs::Points::after_point_at))]
fn split_at_point(text: Text<'_>) -> (Text<'_>, Option<Text<'_>>)
    ensures before { text_units result.0 ≡ before_point (text_units text.entry) }
    ensures behind { option_map text_units result.1 ≡ after_point (text_units text.entry) }
{
    match point(text) {
        Some(k) => {
            let before = Text {
                units: &text.units[..k],
            };
            let behind = Text {
                units: &text.units[k + 1..],
            };
            (before, Some(behind))
        }
        None => (text, None),
    }
}

// An optional minus, a whole number, and then optionally a point and digits.
fn is_numeral(text: Text<'_>) -> bool
    ensures { result ≡ is_numeral (text_units text.entry) }
{
    let (whole, fraction) = split_at_point(body(text));
    whole_digits(whole) && fraction.is_none_or(some_digits)
}

// The units are `0`, or an optional minus and digits that do not start with 0.
pub fn is_bigint(text: Text<'_>) -> bool
    ensures { result ≡ is_big_int (text_units text.entry) }
{
    is_zero(text) || positive_digits(body(text))
}

// The whole number below 2^53 that the units are, but for a minus.
fn whole_of(text: Text<'_>) -> Option<u64>
    ensures { result ≡ whole_of (text_units text.entry) }
{
    whole_within(body(text), LAST_WHOLE)
}

// The bits of the exponent are not all ones, as those of an infinity and of NaN are.
fn finite(bits: u64) -> bool
    ensures { result ≡ is_finite bits }
{
    bits / 0x10_0000_0000_0000 % 2048 != 2047
}

// The bits are those of the double that is `n`, or minus `n`, which is no integer where `n` is 0. Up to here each whole number is a double.
fn is_whole(negative: bool, n: u64, bits: u64) -> bool
    requires { n ≤ 9007199254740991 }
    ensures { result ≡ (bits == whole_bits negative n) }
{
    let size = f64_to_bits_with_nan(n as f64);
    if negative {
        bits >= SIGN && bits - SIGN == size
    } else {
        bits == size
    }
}

// The double is the whole number that the units are, where they are one.
#[tactic(auto, using(crate::proofs::Values::within_limit))]
fn is_double(text: Text<'_>, bits: u64) -> bool
    ensures { result ≡ is_double (minus (text_units text.entry)) (whole_of (text_units text.entry)) bits }
{
    match whole_of(text) {
        Some(n) => is_whole(first_is(text, MINUS), n, bits),
        None => true,
    }
}

// The units may be given for the double with these bits. Of a longer text no unit is looked at.
pub fn is_pair(text: Text<'_>, bits: u64) -> bool
    ensures { result ≡ is_pair bits (text_units text.entry) }
{
    finite(bits)
        && text.len() <= LONGEST_NUMERAL
        && is_numeral(text)
        && first_is(text, MINUS) == (bits >= SIGN)
        && is_double(text, bits)
}
