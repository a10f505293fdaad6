// The parts of an object, read off its row and theirs.
ghost use Rattle.std.specs.Prelude.{◌≡◌, ◌<◌, ◌≢◌, slice_index_or};
ghost use Rattle.dump.specs.Raws.{bytes};
ghost use Rattle.dump.specs.Meaning.{parts_of};
ghost use Rattle.reads.specs.Typed.{part_in, PartFits, PartThere};
ghost use Rattle.reads.specs.Parts.{part_count, part_place, Placed};
ghost use Rattle.dump.specs.Heaps.{no_part};

use super::cells::{key_of, value_of};
use super::object::Part;
use dump::kinds::ObjectKind;
use dump::row::Row;
use rules::texts::Texts;
use shapes::object::parts_in;

// How many parts an object has: a view has its buffer.
pub fn part_count(row: Row) -> usize
    ensures { result ≡ part_count row }
{
    if ObjectKind::try_from(row.kind) == Ok(ObjectKind::View) {
        1
    } else {
        parts_in(row)
    }
}

// The part `k` of an object.
#[tactic(auto, using(crate::proofs::Listed::part_at_lem))]
pub fn part_of<'a>(texts: &Texts<'a>, row: Row, k: usize) -> Part<'a>
    requires below { k < part_count row }
    requires on { row.kind ≡ 12 → row.a < texts.now.raw.layout.objects.count }
    requires placed { (row.kind ≢ 12) → Placed (bytes texts.now.raw) texts.now.raw.layout (part_place row k) }
    ensures is { part_in result ≡ slice_index_or (parts_of (bytes texts.now.raw) texts.now.raw.layout row) k no_part }
    ensures fits { PartFits (bytes texts.now.raw) result }
    ensures there { PartThere texts.now.raw.layout.objects.count result }
{
    let raw = &texts.raw;
    let first = row.a as usize;
    let elements = row.b as usize;
    // Each kind finds its row and reads the cells that it needs: with both cells read before the match a part takes up to
    // five times as long.
    match ObjectKind::try_from(row.kind) {
        Ok(ObjectKind::Plain | ObjectKind::Sparse) => {
            let p = first + k;
            Part::Property(key_of(texts, raw.key(p)), value_of(texts, raw.value(p)))
        }
        Ok(ObjectKind::Dense) if k < elements => {
            Part::Element(value_of(texts, raw.value(first + k)))
        }
        Ok(ObjectKind::Dense) => {
            let p = row.c as usize + (k - elements);
            Part::Property(key_of(texts, raw.key(p)), value_of(texts, raw.value(p)))
        }
        Ok(ObjectKind::Map) => {
            let p = first + k;
            Part::Entry(value_of(texts, raw.key(p)), value_of(texts, raw.value(p)))
        }
        Ok(ObjectKind::Set) => Part::Member(value_of(texts, raw.value(first + k))),
        Ok(ObjectKind::View) => Part::Below(first),
        _ => Part::Cause(value_of(texts, raw.value(row.d as usize + k))),
    }
}
