// The trait of all sinks, and a lent sink as a sink.
ghost use Rattle.sink.specs.Meanings.{Meaning};
ghost use Rattle.sink.specs.Puts.{PutOne};
ghost use Rattle.sink.specs.Sinks.{lent_means};

use super::fault::SinkFault;

// Of a sink nothing is known but what it means.
pub trait Sink {
    ghost means: { Meaning Self };

    // Takes the byte, or is full and stays as it is.
    fn put(&mut self, byte: u8) -> Result<(), SinkFault>
        ensures { PutOne means self.old byte result self.new };
}

impl<K: Sink> Sink for &mut K {
    ghost means = { lent_means K.Sink.means };

    fn put(&mut self, byte: u8) -> Result<(), SinkFault> {
        (**self).put(byte)
    }
}
