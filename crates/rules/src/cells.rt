// The root's row, and BigInts among values.
ghost use Rattle.std.specs.Prelude.{◌≡◌, true};
ghost use Rattle.dump.specs.Raws.{bytes};
ghost use Rattle.shapes.specs.Cells.{place_ok};
ghost use Rattle.rules.specs.Cells.{bigint_ok, root_row};

use super::marks::Marks;
use dump::kinds::Tag;
use dump::refusal::{Refusal, Rule, Site};
use dump::row::Cell;
use shapes::cell::{place_ok, tag_ok};

impl Marks<'_, '_> {
    // A BigInt has the text of one.
    pub fn bigint_ok(&self, cell: Cell) -> bool
        requires { place_ok self.now.raw.layout.texts.count self.now.raw.layout.objects.count cell ≡ true }
        ensures { result ≡ bigint_ok (bytes self.now.raw) self.now.raw.layout cell }
    {
        Tag::try_from(cell.tag) != Ok(Tag::BigInt) || self.flags[cell.low as usize]
    }

    // By its rules in their order, as a row of parts.
    pub fn root_row(&self) -> Result<(), Refusal>
        ensures { result ≡ root_row (bytes self.now.raw) self.now.raw.layout }
    {
        let root = self.raw.root();
        if !tag_ok(root, false) {
            return Err(Refusal::at(Rule::Words, Site::Root, 0));
        }
        if !place_ok(
            root,
            self.raw.layout.texts.count,
            self.raw.layout.objects.count,
        ) {
            return Err(Refusal::at(Rule::Place, Site::Root, 0));
        }
        if !self.bigint_ok(root) {
            return Err(Refusal::at(Rule::Numeral, Site::Root, 0));
        }
        Ok(())
    }
}
