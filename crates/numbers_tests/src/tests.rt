// Numbers at either end, by the speller of whole numbers and by that of a dump.
use super::{count_number, page_number};
use heap_check::heap::Heap;
use numbers::fault::NumberFault;
use sink::SinkFault;
use speller::whole::Whole;
use table::Table;

#[test]
fn counts(rt: HostRuntime) {
    // 5, -0, 2^53 - 1 negative; 0.5 and 2^53 have no numeral; a counter with too little space
    for (bits, space, count) in [
        (0x4014_0000_0000_0000, 9, Some(1)),
        (0x8000_0000_0000_0000, 2, Some(2)),
        (0xc33f_ffff_ffff_ffff, 17, Some(17)),
        (0x3fe0_0000_0000_0000, 9, None),
        (0x4340_0000_0000_0000, 99, None),
        (0x8000_0000_0000_0000, 1, None),
    ] {
        assert_eq!(rt; count_number(&Whole, bits, space).ok(), count, "at {bits}");
    }
}

#[test]
fn pages(rt: HostRuntime) {
    let mut memory = [b'.'; 4];
    assert_eq!(rt;
        page_number(&Whole, 0xc028_0000_0000_0000, &mut memory),
        Ok(3)
    );
    assert_eq!(rt; &memory, b"-12.");
}

// A page that is full holds the first bytes.
#[test]
fn fills_up(rt: HostRuntime) {
    let mut memory = [b'.'; 2];
    assert_eq!(rt;
        page_number(&Whole, 0xc028_0000_0000_0000, &mut memory),
        Err(NumberFault::Sinking(SinkFault::Full))
    );
    assert_eq!(rt; &memory, b"-1");
}

// A dump with the numerals `-0` and `1.5`.
const DUMP: &[u8; 90] =
    b"\x02\0\0\0\0\0\0\0\x02\0\0\0\x02\0\0\0\x03\0\0\0\x05\0\0\0-\00\01\0.\05\0\x02\0\0\0\0\0\0\0\0\0\0\x80\0\0\0\0\0\0\0\0\0\0\xf8?\x01\0\0\0\0\0\0\0\0\0\0\0\0\0\0\0\x01\0\0\0\0\0\0\0\0\0\0\0\0\0\0\0";

#[test]
fn by_a_dump(rt: HostRuntime) {
    let mut heap = Heap::new();
    assert!(rt; heap.check(DUMP).is_ok());
    let table = Table::new(heap.checked());
    for (bits, space, count) in [
        (0x3ff8_0000_0000_0000, 3, Some(3)),
        (0x3ff8_0000_0000_0000, 2, None),
        (0x4004_0000_0000_0000, 9, None),
    ] {
        assert_eq!(rt; count_number(&table, bits, space).ok(), count, "at {bits}");
    }
    let mut memory = [b'.'; 4];
    assert_eq!(rt;
        page_number(&table, 0x3ff8_0000_0000_0000, &mut memory),
        Ok(3)
    );
    assert_eq!(rt; &memory, b"1.5.");
}
