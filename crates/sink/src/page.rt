// A page keeps the bytes.
ghost use Rattle.std.specs.Prelude.{◌≡◌, ◌^◌, ◌<◌, ◌≤◌, [], length};

use super::fault::SinkFault;
use super::sink::Sink;

// The bytes stand at the front of a lent slice, `len` of them so far. The two parts as slices would be no
// plainer: safe code cannot move a byte from the one to the other.
#[derive(Drop)]
pub struct Page<'a> {
    bytes: &'a mut [u8],
    len: usize,
    ghost fits: { (len ≤ length bytes.now) × (length bytes.now < 2 ^ 64) },
}

impl<'a> Page<'a> {
    ghost use Rattle.sink.specs.Sinks.{page_means};

    pub fn new(bytes: &'a mut [u8]) -> Page<'a>
        ensures state { page_means.state result ≡ [] }
        ensures space { page_means.space result ≡ length bytes.old }
        ensures place { page_means.place result ≡ (bytes.entry.ghost_name, length bytes.old) }
    {
        Page { bytes, len: 0 }
    }

    pub fn len(&self) -> usize
        ensures { result ≡ length (page_means.state self.now) }
    {
        self.written().len()
    }

    pub fn space(&self) -> usize
        ensures { result ≡ page_means.space self.now }
    {
        self.bytes.len() - self.len
    }

    pub fn written(&self) -> &[u8]
        ensures { result.now ≡ page_means.state self.now }
    {
        &self.bytes[0..self.len]
    }
}

impl Sink for Page<'_> {
    ghost use Rattle.sink.specs.Sinks.{page_means};

    ghost means = { page_means };

    fn put(&mut self, byte: u8) -> Result<(), SinkFault> {
        if self.bytes.len() <= self.len {
            return Err(SinkFault::Full);
        }
        self.bytes[self.len] = byte;
        self.len += 1;
        Ok(())
    }
}
