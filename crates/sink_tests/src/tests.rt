// A short text into small sinks: full at each of its bytes, and not at all.
use super::{count_twice, page_twice, put_lent, repeat, tell_twice};
use sink::{Counter, Page, Sink, SinkFault, Tally, put_all};
use std::process::Abort;

// A page over `memory` is given abc. A page and a counter are asked other things, so each has its cases.
fn paged(
    rt: &impl Abort,
    memory: &mut [u8],
    answer: Result<(), SinkFault>,
    written: &[u8],
    space: usize,
) {
    let mut page = Page::new(memory);
    assert_eq!(rt; put_all(&mut page, b"abc"), answer);
    assert_eq!(rt; page.written(), written);
    assert_eq!(rt; page.len(), written.len());
    assert_eq!(rt; page.space(), space);
}

#[test]
fn pages(rt: HostRuntime) {
    let mut memory = [120u8; 5];
    paged(&rt, &mut memory[0..0], Err(SinkFault::Full), b"", 0);
    assert_eq!(rt; &memory, b"xxxxx");
    paged(&rt, &mut memory[0..1], Err(SinkFault::Full), b"a", 0);
    assert_eq!(rt; &memory, b"axxxx");
    paged(&rt, &mut memory[0..2], Err(SinkFault::Full), b"ab", 0);
    assert_eq!(rt; &memory, b"abxxx");
    paged(&rt, &mut memory[0..3], Ok(()), b"abc", 0);
    assert_eq!(rt; &memory, b"abcxx");
    paged(&rt, &mut memory[1..5], Ok(()), b"abc", 1);
    assert_eq!(rt; &memory, b"aabcx");
}

#[test]
fn counters(rt: HostRuntime) {
    let full = Err(SinkFault::Full);
    for (space, answer, count, left) in [
        (0, full, 0, 0),
        (1, full, 1, 0),
        (2, full, 2, 0),
        (3, Ok(()), 3, 0),
        (u64::MAX, Ok(()), 3, u64::MAX - 3),
    ] {
        let mut counter = Counter::new(space);
        assert_eq!(rt; put_all(&mut counter, b"abc"), answer, "at {space}");
        assert_eq!(rt; counter.count(), count, "at {space}");
        assert_eq!(rt; counter.space(), left, "at {space}");
    }
}

#[test]
fn after_full(rt: HostRuntime) {
    let mut memory = [0u8; 2];
    let mut page = Page::new(&mut memory);
    assert_eq!(rt; put_all(&mut page, b"abc"), Err(SinkFault::Full));
    assert_eq!(rt; page.put(100), Err(SinkFault::Full));
    assert_eq!(rt; put_all(&mut page, b"de"), Err(SinkFault::Full));
    assert_eq!(rt; put_all(&mut page, b""), Ok(()));
    assert_eq!(rt; page.written(), b"ab".as_slice());
    let mut counter = Counter::new(1);
    assert_eq!(rt; counter.put(97), Ok(()));
    assert_eq!(rt; counter.put(98), Err(SinkFault::Full));
    assert_eq!(rt; counter.count(), 1);
}

#[test]
fn lent(rt: HostRuntime) {
    let mut counter = Counter::new(3);
    let mut loan = &mut counter;
    assert_eq!(rt; put_all(&mut loan, b"ab"), Ok(()));
    assert_eq!(rt; put_lent(&mut loan, b"cd"), Err(SinkFault::Full));
    assert_eq!(rt; counter.count(), 3);
}

// A sink by value, which a loan is too.
fn give<K: Sink + Drop>(mut sink: K, bytes: &[u8]) -> Result<(), SinkFault> {
    put_all(&mut sink, bytes)
}

#[test]
fn lent_page(rt: HostRuntime) {
    let mut memory = [0u8; 4];
    let mut page = Page::new(&mut memory);
    assert_eq!(rt; give(&mut page, b"abc"), Ok(()));
    assert_eq!(rt; give(&mut page, b"de"), Err(SinkFault::Full));
    assert_eq!(rt; page.written(), b"abcd".as_slice());
}

#[test]
fn tallies(rt: HostRuntime) {
    let mut memory = [0u8; 4];
    let mut page = Page::new(&mut memory);
    let mut tally = Tally::new(&mut page);
    assert_eq!(rt; put_all(&mut tally, b"abc"), Ok(()));
    assert_eq!(rt; tally.count(), 3);
    assert_eq!(rt; put_all(&mut tally, b"de"), Err(SinkFault::Full));
    assert_eq!(rt; tally.count(), 4);
    assert_eq!(rt; page.written(), b"abcd".as_slice());
}

#[test]
fn twice(rt: HostRuntime) {
    let mut memory = [0u8; 7];
    assert_eq!(rt; page_twice(&mut memory, b"abc"), Ok(6));
    assert_eq!(rt; &memory, b"abcabc\0");
    assert_eq!(rt; page_twice(&mut memory[0..4], b"xyz"), Err(SinkFault::Full));
    assert_eq!(rt; &memory, b"xyzxbc\0");
    assert_eq!(rt; count_twice(6, b"abc"), Ok(6));
    assert_eq!(rt; count_twice(5, b"abc"), Err(SinkFault::Full));
    assert_eq!(rt; tell_twice(&mut Counter::new(9), b"abc"), Ok(6));
    assert_eq!(rt;
        tell_twice(&mut Counter::new(2), b"abc"),
        Err(SinkFault::Full)
    );
}

#[test]
fn repeats(rt: HostRuntime) {
    let mut memory = [0u8; 5];
    let mut page = Page::new(&mut memory);
    assert_eq!(rt; repeat(&mut page, b"ab", 0), Ok(()));
    assert_eq!(rt; repeat(&mut page, b"ab", 2), Ok(()));
    assert_eq!(rt; repeat(&mut page, b"cd", 2), Err(SinkFault::Full));
    assert_eq!(rt; page.written(), b"ababc".as_slice());
}
