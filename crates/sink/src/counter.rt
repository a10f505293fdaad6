// A counter keeps the number of the bytes. What is new, counted and left is told by functions of its own, as of a page:
// each over another state, so the trait has but what they share.
ghost use Rattle.std.specs.Prelude.{◌≡◌, ◌+◌, ◌^◌, ◌<◌};

use super::fault::SinkFault;
use super::sink::Sink;

#[derive(Drop)]
pub struct Counter {
    count: u64,
    space: u64,
    ghost fits: { count + space < 2 ^ 64 },
}

impl Counter {
    ghost use Rattle.sink.specs.Sinks.{counter_means};

    pub fn new(space: u64) -> Counter
        ensures state { counter_means.state result ≡ 0 }
        ensures space { counter_means.space result ≡ space }
    {
        Counter { count: 0, space }
    }

    pub fn count(&self) -> u64
        ensures { result ≡ counter_means.state self.now }
    {
        self.count
    }

    pub fn space(&self) -> u64
        ensures { result ≡ counter_means.space self.now }
    {
        self.space
    }
}

impl Sink for Counter {
    ghost use Rattle.sink.specs.Sinks.{counter_means};

    ghost means = { counter_means };

    fn put(&mut self, _byte: u8) -> Result<(), SinkFault> {
        if self.space == 0 {
            return Err(SinkFault::Full);
        }
        self.space -= 1;
        self.count += 1;
        Ok(())
    }
}
