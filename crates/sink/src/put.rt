// Many bytes into any sink.
ghost use Rattle.sink.specs.Puts.{Put};

use super::fault::SinkFault;
use super::sink::Sink;

// Puts the bytes in their order, and stops where the sink is full.
pub fn put_all<K: Sink>(sink: &mut K, bytes: &[u8]) -> Result<(), SinkFault>
    ensures { Put K.Sink.means sink.old bytes.now result sink.new }
{
    for byte in bytes {
        sink.put(*byte)?;
    }
    Ok(())
}
