// Callers of the crate `sink`: under the trait, with either end, and with a tally.
#![tactic(auto)]

ghost use Rattle.std.specs.Prelude.{◌++◌};
ghost use Rattle.sink.specs.Puts.{Put, Told};
ghost use Rattle.sink_tests.specs.Repeated.{repeated};
ghost use Rattle.sink_tests.specs.Twice.{PagedTwice, CountedTwice};

use sink::{Counter, Page, Sink, SinkFault, Tally, put_all};

#[cfg(test)]
mod tests;

// Puts the bytes twice into any sink.
pub fn twice<K: Sink>(sink: &mut K, bytes: &[u8]) -> Result<(), SinkFault>
    ensures { Put K.Sink.means sink.old (bytes.now ++ bytes.now) result sink.new }
{
    put_all(sink, bytes)?;
    put_all(sink, bytes)
}

// What a page's lender finds in the memory: all, or as many bytes as it has.
pub fn page_twice(memory: &mut [u8], bytes: &[u8]) -> Result<usize, SinkFault>
    ensures { PagedTwice memory.old bytes.now result memory.new }
{
    let mut page = Page::new(memory);
    twice(&mut page, bytes)?;
    Ok(page.len())
}

// The same at the other end. One function for both would need their two promises as a trait.
pub fn count_twice(space: u64, bytes: &[u8]) -> Result<u64, SinkFault>
    ensures { CountedTwice space bytes.now result }
{
    let mut counter = Counter::new(space);
    twice(&mut counter, bytes)?;
    Ok(counter.count())
}

// Tells how many bytes went out, whatever the sink.
pub fn tell_twice<K: Sink>(sink: &mut K, bytes: &[u8]) -> Result<u64, SinkFault>
    ensures { Told K.Sink.means sink.old (bytes.now ++ bytes.now) result sink.new }
{
    let mut tally = Tally::new(sink);
    twice(&mut tally, bytes)?;
    Ok(tally.count())
}

// Puts the bytes so many times, in a loop.
pub fn repeat<K: Sink>(sink: &mut K, bytes: &[u8], times: usize) -> Result<(), SinkFault>
    ensures { Put K.Sink.means sink.old (repeated times bytes.now) result sink.new }
{
    for _ in 0..times {
        put_all(sink, bytes)?;
    }
    Ok(())
}

// Puts the bytes into a sink that is lent twice.
pub fn put_lent<K: Sink>(sink: &mut &mut K, bytes: &[u8]) -> Result<(), SinkFault>
    ensures { Put K.Sink.means sink.old.now bytes.now result sink.new.now }
{
    put_all::<&mut K>(sink, bytes)
}
