// All rows of a dump, in the order of the walk.
ghost use Rattle.std.specs.Prelude.{◌≡◌, ◌≤◌};
ghost use Rattle.dump.specs.Raws.{bytes};
ghost use Rattle.dump.specs.Refusals.{site_number};
ghost use Rattle.rules.specs.Verdicts.{all_used, rows_of};

use super::marks::Marks;
use super::objects::Objects;
use super::parts::Parts;
use super::texts::{Texts, text_rows};
use dump::raw::Raw;
use dump::refusal::{Refusal, Rule, Site};

// Of `all` records of a section the runs use so many: the first in no run is refused.
fn all_used(site: Site, used: usize, all: usize) -> Result<(), Refusal>
    requires { all ≤ 1048576 }
    ensures { result ≡ all_used (site_number site) used all }
{
    if used < all {
        return Err(Refusal::at(Rule::Place, site, used));
    }
    Ok(())
}

pub fn rows(raw: &Raw<'_>) -> Result<(), Refusal>
    ensures { result ≡ rows_of (bytes raw.now) raw.now.layout }
{
    // Here and not where they are marked: a function clears its tables as it begins, and would clear them again there.
    let mut flags = [false; 8192];
    text_rows(raw)?;
    let texts = Texts { raw: *raw };
    texts.numeral_rows()?;
    texts.mark(&mut flags);
    let marks = Marks {
        raw: *raw,
        flags: &flags,
    };
    marks.object_rows()?;
    let objects = Objects { raw: *raw };
    let parts = Parts { marks };
    parts.part_rows()?;
    let used = objects.all_parts();
    parts.loose_parts(used)?;
    marks.root_row()?;
    let layout = raw.layout;
    all_used(
        Site::Units,
        raw.begin(layout.texts.count),
        layout.units.count,
    )?;
    all_used(Site::Octets, objects.all_octets(), layout.octets.count)?;
    all_used(Site::Parts, used, layout.parts.count)
}
