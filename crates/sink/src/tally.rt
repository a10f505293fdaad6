// A tally hands each byte on to a lent sink, and counts those that it took. It holds no `Counter`: that would have a
// space of its own beside the sink's.
ghost use Rattle.std.specs.Prelude.{◌≡◌};

use super::fault::SinkFault;
use super::sink::Sink;

#[derive(Drop)]
pub struct Tally<'k, K> {
    sink: &'k mut K,
    count: u64,
}

impl<'k, K> Tally<'k, K> {
    pub fn new(sink: &'k mut K) -> Tally<'k, K>
        ensures sink { result.sink.now ≡ sink.old }
        ensures count { result.count ≡ 0 }
        ensures place { result.sink.ghost_name ≡ sink.entry.ghost_name }
    {
        Tally { sink, count: 0 }
    }

    pub fn count(&self) -> u64
        ensures { result ≡ self.now.count }
    {
        self.count
    }
}

impl<K: Sink> Sink for Tally<'_, K> {
    ghost use Rattle.sink.specs.Sinks.{tally_means};

    ghost means = { tally_means K.Sink.means };

    fn put(&mut self, byte: u8) -> Result<(), SinkFault> {
        self.sink.put(byte)?;
        // From 0 it does not wrap: all these bytes had space, and a space is below 2^64.
        self.count = self.count.wrapping_add(1);
        Ok(())
    }
}
