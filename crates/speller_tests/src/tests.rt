// What `Whole` spells and refuses, and what it leaves in the buffer.
use speller::fault::SpellFault;
use speller::spelling::{Speller, numeral_of};
use speller::whole::Whole;
use std::process::Abort;

const ZERO: u64 = 0x0000_0000_0000_0000;

const MINUS_ZERO: u64 = 0x8000_0000_0000_0000;

const ONE: u64 = 0x3ff0_0000_0000_0000;

const MINUS_ONE: u64 = 0xbff0_0000_0000_0000;

const TWELVE: u64 = 0x4028_0000_0000_0000;

const MILLION: u64 = 0x412e_8480_0000_0000;

const LAST: u64 = 0x433f_ffff_ffff_ffff;

const MINUS_LAST: u64 = 0xc33f_ffff_ffff_ffff;

const PAST: u64 = 0x4340_0000_0000_0000;

const MINUS_PAST: u64 = 0xc340_0000_0000_0000;

const HALF: u64 = 0x3fe0_0000_0000_0000;

const ONE_AND_A_HALF: u64 = 0x3ff8_0000_0000_0000;

const LEAST: u64 = 0x0000_0000_0000_0001;

const GREATEST: u64 = 0x7fef_ffff_ffff_ffff;

const INFINITY: u64 = 0x7ff0_0000_0000_0000;

const MINUS_INFINITY: u64 = 0xfff0_0000_0000_0000;

const NAN: u64 = 0x7ff8_0000_0000_0000;

const MINUS_NAN: u64 = 0xffff_ffff_ffff_ffff;

// What the buffer holds before.
const FILL: u8 = 0x23;

// The buffer begins with `text`, and the rest is as it was.
fn holds(buffer: &[u8], text: &[u8]) -> bool {
    buffer
        .strip_prefix(text)
        .is_some_and(|rest| rest.iter().all(|b| *b == FILL))
}

// What the buffer gets for an answer, and what it holds then.
fn spells(
    rt: &impl Abort,
    buffer: &mut [u8],
    bits: u64,
    answer: Result<usize, SpellFault>,
    text: &[u8],
) {
    assert_eq!(rt; Whole.spell(bits, buffer), answer, "at {bits}");
    assert!(rt; holds(buffer, text), "at {bits}");
}

// In the least buffer and in a larger one.
#[test]
fn whole_numbers(rt: HostRuntime) {
    for (bits, text) in [
        (ZERO, "0"),
        (MINUS_ZERO, "-0"),
        (ONE, "1"),
        (MINUS_ONE, "-1"),
        (TWELVE, "12"),
        (MILLION, "1000000"),
        (LAST, "9007199254740991"),
        (MINUS_LAST, "-9007199254740991"),
    ] {
        spells(&rt, &mut [FILL; 17], bits, Ok(text.len()), text.as_bytes());
        spells(&rt, &mut [FILL; 40], bits, Ok(text.len()), text.as_bytes());
    }
}

#[test]
fn other_doubles(rt: HostRuntime) {
    for bits in [
        PAST,
        MINUS_PAST,
        HALF,
        ONE_AND_A_HALF,
        LEAST,
        GREATEST,
        INFINITY,
        MINUS_INFINITY,
        NAN,
        MINUS_NAN,
    ] {
        spells(&rt, &mut [FILL; 17], bits, Err(SpellFault::Unspelled), b"");
    }
}

#[test]
fn short_buffers(rt: HostRuntime) {
    for bits in [ZERO, MINUS_LAST, HALF, NAN] {
        spells(&rt, &mut [FILL; 16], bits, Err(SpellFault::Short), b"");
    }
    spells(&rt, &mut [FILL; 0], ONE, Err(SpellFault::Short), b"");
}

#[test]
fn scratch(rt: HostRuntime) {
    let mut buffer = [FILL; 400];
    assert_eq!(rt; numeral_of(&Whole, HALF, &mut buffer), None);
    assert!(rt; holds(&buffer, b""));
    assert_eq!(rt; numeral_of(&Whole, MINUS_ONE, &mut buffer), Some(2));
    assert!(rt; holds(&buffer, b"-1"));
}

#[test]
fn longest(rt: HostRuntime) {
    assert_eq!(rt; Whole::LONGEST, 17);
    assert_eq!(rt; Whole::most(), 17);
}

#[test]
fn numbers(rt: HostRuntime) {
    assert_eq!(rt; SpellFault::Short.number(), 24);
    assert_eq!(rt; SpellFault::Unspelled.number(), 11);
}
