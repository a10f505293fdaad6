// A text in a dump: its units, each of two bytes, the low one first.
ghost use Rattle.std.specs.Prelude.{◌≡◌};
ghost use Rattle.dump.specs.Bytes.{little};

use super::row::Run;

// The units of a text that `new` makes lie in the dump: a run that leaves it is no text. The type alone does not say so.
#[derive(Clone, Copy)]
pub struct Text<'a> {
    pub units: &'a [[u8; 2]],
}

// The unit that two bytes are.
pub fn unit(pair: &[u8; 2]) -> u16
    ensures { result ≡ little pair.now }
{
    u16::from_le_bytes(*pair)
}

impl<'a> Text<'a> {
    ghost use Rattle.std.specs.Prelude.{◌≡◌, ℕ, ◌+◌, ◌*◌, ◌<◌, ◌≤◌, length, slice_index};
    ghost use Rattle.dump.specs.Places.{units_of};
    ghost use Rattle.dump.specs.Texts.{text_units};

    // The text whose units a run has.
    pub fn new(dump: &'a [u8], run: Run) -> Text<'a>
        requires { run.start + run.count * 2 ≤ length dump.now }
        ensures { text_units result ≡ units_of dump.now run }
    {
        let (units, _) = dump[run.start..run.start + run.count * 2].as_chunks();
        Text { units }
    }

    pub fn len(self) -> usize
        ensures { result ≡ length (text_units self.entry) }
    {
        self.units.len()
    }

    pub fn unit(self, k: usize) -> u16
        requires { k < length (text_units self) }
        ensures { result ≡ slice_index (text_units self.entry) k }
    {
        unit(&self.units[k])
    }
}
