// Texts of decimal digits, and the numbers that they are.
ghost use Rattle.std.specs.Prelude.{◌≡◌, ◌^◌, ◌<◌, is_some};
ghost use Rattle.dump.specs.Texts.{text_units};
ghost use Rattle.numeral.specs.Digits.{is_digit, are_digits, some_digits, first_is, number_within, is_zero, positive_digits, whole_digits, whole_within, index_of};

use dump::text::{Text, unit};

const ZERO: u16 = 48;

const NINE: u16 = 57;

// Here and below `units.iter().map(unit)`: an iterator as a result would have no type to name.
// The first unit is `c`.
pub(crate) fn first_is(text: Text<'_>, c: u16) -> bool
    ensures { result ≡ first_is c (text_units text.entry) }
{
    text.units.first().map(unit) == Some(c)
}

fn is_digit(c: u16) -> bool
    ensures { result ≡ is_digit c }
{
    (ZERO..=NINE).contains(&c)
}

fn all_digits(text: Text<'_>) -> bool
    ensures { result ≡ are_digits (text_units text.entry) }
{
    text.units.iter().map(unit).all(is_digit)
}

// At least one unit, and digits only.
pub(crate) fn some_digits(text: Text<'_>) -> bool
    ensures { result ≡ some_digits (text_units text.entry) }
{
    !text.units.is_empty() && all_digits(text)
}

// The number that digits write, if it is at most `limit`. It stops where it passes that, so that nothing wraps.
#[tactic(auto, using(crate::proofs::Values::within_more, crate::proofs::Values::past_limit))]
fn number_within(text: Text<'_>, limit: u64) -> Option<u64>
    requires { limit < 2 ^ 60 }
    ensures { result ≡ number_within limit (text_units text.entry) }
{
    let mut value = 0;
    for pair in text.units {
        let c = unit(pair);
        if !is_digit(c) {
            return None;
        }
        value = value * 10 + u64::from(c - ZERO);
        if value > limit {
            return None;
        }
    }
    Some(value)
}

// The text `0`.
pub(crate) fn is_zero(text: Text<'_>) -> bool
    ensures { result ≡ is_zero (text_units text.entry) }
{
    text.len() == 1 && first_is(text, ZERO)
}

// Digits that do not start with 0.
pub(crate) fn positive_digits(text: Text<'_>) -> bool
    ensures { result ≡ positive_digits (text_units text.entry) }
{
    !first_is(text, ZERO) && some_digits(text)
}

// A whole number of any size.
pub(crate) fn whole_digits(text: Text<'_>) -> bool
    ensures { result ≡ whole_digits (text_units text.entry) }
{
    is_zero(text) || positive_digits(text)
}

// The number up to `limit` that the units are in decimal. No 0 comes first, so a few units too many pass the limit.
pub(crate) fn whole_within(text: Text<'_>, limit: u64) -> Option<u64>
    requires { limit < 2 ^ 60 }
    ensures { result ≡ whole_within limit (text_units text.entry) }
{
    if text.units.is_empty() || text.len() > 1 && first_is(text, ZERO) {
        return None;
    }
    number_within(text, limit)
}

// The units are an index in decimal. At most some 11 of them are looked at.
pub fn is_index(text: Text<'_>) -> bool
    ensures { result ≡ is_some (index_of (text_units text.entry)) }
{
    whole_within(text, 4_294_967_294).is_some()
}
