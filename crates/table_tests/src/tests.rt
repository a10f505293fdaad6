// What a table spells, and what it refuses, from dumps with numerals and without.
use heap_check::heap::Heap;
use speller::fault::SpellFault;
use speller::spelling::{Speller, numeral_of};
use std::process::Abort;
use table::Table;

// `-0` and `1.5`, each a text and a numeral, and the root undefined.
const TWO: &[u8; 90] =
    b"\x02\0\0\0\0\0\0\0\x02\0\0\0\x02\0\0\0\x03\0\0\0\x05\0\0\0\x2d\0\x30\0\x31\0\x2e\0\x35\0\x02\0\0\0\0\0\0\0\0\0\0\x80\0\0\0\0\0\0\0\0\0\0\xf8\x3f\x01\0\0\0\0\0\0\0\0\0\0\0\0\0\0\0\x01\0\0\0\0\0\0\0\0\0\0\0\0\0\0\0";

// The same without a numeral. `heap_check` has these bytes for itself.
const NONE: &[u8; 40] =
    b"\0\0\0\0\0\0\0\0\0\0\0\0\0\0\0\0\0\0\0\0\0\0\0\0\x01\0\0\0\0\0\0\0\0\0\0\0\0\0\0\0";

const MINUS_ZERO: u64 = 0x8000_0000_0000_0000;

const ZERO: u64 = 0x0000_0000_0000_0000;

const ONE_AND_A_HALF: u64 = 0x3ff8_0000_0000_0000;

const TWO_AND_A_HALF: u64 = 0x4004_0000_0000_0000;

// What the buffer holds before.
const FILL: u8 = 0x23;

// The buffer begins with `text`, and the rest is as it was. Tests see no helpers of another crate's tests, so
// this and the next stand in the crate `speller_tests`, too, and the dump in `numbers_tests`.
fn holds(buffer: &[u8], text: &[u8]) -> bool {
    buffer
        .strip_prefix(text)
        .is_some_and(|rest| rest.iter().all(|b| *b == FILL))
}

// What the buffer gets for an answer, and what it holds then.
fn spells(
    rt: &impl Abort,
    table: &Table,
    buffer: &mut [u8],
    bits: u64,
    answer: Result<usize, SpellFault>,
    text: &[u8],
) {
    assert_eq!(rt; table.spell(bits, buffer), answer, "at {bits}");
    assert!(rt; holds(buffer, text), "at {bits}");
}

fn table_of<'a>(rt: &impl Abort, dump: &'a [u8]) -> Table<'a> {
    let mut heap = Heap::new();
    assert!(rt; heap.check(dump).is_ok());
    Table::new(heap.checked())
}

#[test]
fn two(rt: HostRuntime) {
    let table = table_of(&rt, TWO);
    for (bits, text) in [(MINUS_ZERO, "-0"), (ONE_AND_A_HALF, "1.5")] {
        // In the least buffer and in a larger one.
        let answer = Ok(text.len());
        spells(&rt, &table, &mut [FILL; 400], bits, answer, text.as_bytes());
        spells(&rt, &table, &mut [FILL; 410], bits, answer, text.as_bytes());
    }
    for bits in [ZERO, TWO_AND_A_HALF] {
        let answer = Err(SpellFault::Unspelled);
        spells(&rt, &table, &mut [FILL; 400], bits, answer, b"");
    }
    for bits in [ONE_AND_A_HALF, TWO_AND_A_HALF] {
        let answer = Err(SpellFault::Short);
        spells(&rt, &table, &mut [FILL; 399], bits, answer, b"");
    }
}

#[test]
fn none(rt: HostRuntime) {
    let table = table_of(&rt, NONE);
    let unspelled = Err(SpellFault::Unspelled);
    spells(&rt, &table, &mut [FILL; 400], ZERO, unspelled, b"");
    let short = Err(SpellFault::Short);
    spells(&rt, &table, &mut [FILL; 399], ZERO, short, b"");
}

#[test]
fn scratch(rt: HostRuntime) {
    let table = table_of(&rt, TWO);
    let mut buffer = [FILL; 400];
    assert_eq!(rt; numeral_of(&table, TWO_AND_A_HALF, &mut buffer), None);
    assert!(rt; holds(&buffer, b""));
    assert_eq!(rt; numeral_of(&table, ONE_AND_A_HALF, &mut buffer), Some(3));
    assert!(rt; holds(&buffer, b"1.5"));
}

#[test]
fn longest(rt: HostRuntime) {
    assert_eq!(rt; Table::LONGEST, 400);
    assert_eq!(rt; Table::most(), 400);
}
