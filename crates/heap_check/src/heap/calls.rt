// The calls of a heap.
ghost use Rattle.std.specs.Prelude.{◌≡◌};
ghost use Rattle.rules.specs.Verdicts.{verdict};
ghost use Rattle.formed.specs.Formed.{Formed};
ghost use Rattle.heap_check.specs.Exact.{Exactly};
ghost use Rattle.heap_check.specs.Heaps.{model, nothing, Answers};

use super::super::checked::Checked;
use super::Heap;
use dump::bytes::are_bytes;
use dump::layout::{Layout, Section};
use dump::raw::Raw;
use dump::refusal::Refusal;
use dump::walk::walk;
use rules::rows::rows;

// The dump with nothing in its sections and the root undefined.
const EMPTY: &[u8; 40] =
    b"\0\0\0\0\0\0\0\0\0\0\0\0\0\0\0\0\0\0\0\0\0\0\0\0\x01\0\0\0\0\0\0\0\0\0\0\0\0\0\0\0";

// Where its sections stand, each behind a count. By hand: a constant calls no `walk`.
const EMPTY_LAYOUT: Layout = Layout {
    texts: Section { start: 4, count: 0 },
    units: Section { start: 8, count: 0 },
    numerals: Section {
        start: 12,
        count: 0,
    },
    octets: Section {
        start: 16,
        count: 0,
    },
    objects: Section {
        start: 20,
        count: 0,
    },
    parts: Section {
        start: 24,
        count: 0,
    },
    root: Section {
        start: 28,
        count: 1,
    },
};

// A `TryFrom<&[u8]> for Checked` beside these was tried: it proves, but `rt check` finds no proof of a
// function that calls it, and tells of a fault of its own.
impl<'a> Heap<'a> {
    // The heap with nothing in it, and the root undefined. No generic code asks for a `Default`.
    pub fn new() -> Heap<'a>
        ensures { model result.checked ≡ nothing }
    {
        let raw = Raw {
            dump: EMPTY,
            layout: EMPTY_LAYOUT,
        };
        Heap {
            checked: Checked { raw },
        }
    }

    fn fill(&mut self, dump: &'a [u8]) -> Result<(), Refusal>
        ensures { Answers (verdict dump.now) result self.old self.new }
    {
        let layout = walk(dump)?;
        let raw = Raw { dump, layout };
        rows(&raw)?;
        are_bytes(dump);
        let checked = Checked { raw };
        *self = Heap { checked };
        Ok(())
    }

    // Fills the heap with what a sound dump means; else says what is wrong, and the heap stays as it was.
    pub fn check(&mut self, dump: &'a [u8]) -> Result<(), Refusal>
        ensures told { Answers (verdict dump.now) result self.old self.new }
        ensures exactly { Exactly dump.now result self.new }
        ensures formed { Formed (model self.new.checked) }
    {
        self.fill(dump)
    }

    // What the heap holds, for reading.
    pub fn checked(&self) -> Checked<'a>
        ensures { result ≡ self.now.checked }
    {
        self.checked
    }
}
