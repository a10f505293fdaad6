// A dump whose sections are found: each lies in it and keeps its limit.
ghost use Rattle.std.specs.Prelude.{◌+◌, ◌*◌, ◌≤◌, length};

use super::layout::Layout;

mod reads;

// The limits are those of the walk, said of each section by itself: sections of sizes and limits as parameters of their
// type would be seven types in place of one.
#[derive(Clone, Copy)]
pub struct Raw<'a> {
    pub dump: &'a [u8],
    pub layout: Layout,
    ghost texts: { layout.texts.start + layout.texts.count * 8 ≤ length dump.now },
    ghost units: { layout.units.start + layout.units.count * 2 ≤ length dump.now },
    ghost numerals: { layout.numerals.start + layout.numerals.count * 12 ≤ length dump.now },
    ghost octets: { layout.octets.start + layout.octets.count * 1 ≤ length dump.now },
    ghost objects: { layout.objects.start + layout.objects.count * 24 ≤ length dump.now },
    ghost parts: { layout.parts.start + layout.parts.count * 24 ≤ length dump.now },
    ghost root: { layout.root.start + 12 ≤ length dump.now },
    ghost few_texts: { layout.texts.count ≤ 8192 },
    ghost few_units: { layout.units.count ≤ 1048576 },
    ghost few_numerals: { layout.numerals.count ≤ 4096 },
    ghost few_octets: { layout.octets.count ≤ 1048576 },
    ghost few_objects: { layout.objects.count ≤ 4096 },
    ghost few_parts: { layout.parts.count ≤ 65536 },
}
