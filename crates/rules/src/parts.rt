// Part rows, each in its role for its object.
ghost use Rattle.std.specs.Prelude.{◌≡◌, ℕ, ◌+◌, ◌<◌, ◌≤◌};
ghost use Rattle.dump.specs.Raws.{bytes};
ghost use Rattle.dump.specs.Rules.{each as each_of};
ghost use Rattle.rules.specs.Texts.{TextsSound};
ghost use Rattle.rules.specs.Objects.{ObjectsSound, parts_below};
ghost use Rattle.rules.specs.Parts.{part_row, part_run, object_parts, loose_run};

use super::each::each;
use super::marks::Marks;
use super::part::Part;
use super::role::{PartRun, Role, first_run, second_run};
use super::texts::Texts;
use dump::refusal::{Refusal, Rule, Site};
use shapes::cell::{place_ok, tag_ok};

// The marks of a dump whose text rows keep their rules. `Marks` alone ask for no such rows, and are used without.
#[derive(Clone, Copy)]
pub struct Parts<'m, 'a> {
    pub marks: Marks<'m, 'a>,
    ghost sound: { TextsSound marks.raw },
}

impl Parts<'_, '_> {
    // The part `k` of a run, by its rules in their order: in a list each would be a `&dyn Fn`.
    fn part_row(&self, run: PartRun, k: usize) -> Result<(), Refusal>
        requires { run.first + k < self.now.marks.raw.layout.parts.count }
        ensures { result ≡ part_row (bytes self.now.marks.raw) self.now.marks.raw.layout run k }
    {
        let raw = &self.marks.raw;
        let p = run.first + k;
        let key = raw.key(p);
        let value = raw.value(p);
        let layout = raw.layout;
        let places = |cell| place_ok(cell, layout.texts.count, layout.objects.count);
        if !tag_ok(key, false) || !tag_ok(value, run.role.may_be_hole()) {
            return Err(Refusal::at(Rule::Words, Site::Parts, p));
        }
        if !places(key) || !places(value) {
            return Err(Refusal::at(Rule::Place, Site::Parts, p));
        }
        if !self.marks.bigint_ok(key) || !self.marks.bigint_ok(value) {
            return Err(Refusal::at(Rule::Numeral, Site::Parts, p));
        }
        let texts = Texts { raw: *raw };
        let part = Part {
            texts: &texts,
            run,
            k,
        };
        if !part.key_ok() {
            return Err(Refusal::at(Rule::Key, Site::Parts, p));
        }
        if !part.member_ok() {
            return Err(Refusal::at(Rule::Member, Site::Parts, p));
        }
        Ok(())
    }

    fn part_run(&self, run: PartRun) -> Result<(), Refusal>
        requires { run.first + run.count ≤ self.now.marks.raw.layout.parts.count }
        ensures { result ≡ part_run (bytes self.now.marks.raw) self.now.marks.raw.layout run }
    {
        each(run.count, |k| self.part_row(run, k))
    }

    fn object_parts(&self, i: usize) -> Result<(), Refusal>
        requires here { i < self.now.marks.raw.layout.objects.count }
        requires sound { ObjectsSound self.now.marks.raw }
        ensures { result ≡ object_parts (bytes self.now.marks.raw) self.now.marks.raw.layout i }
    {
        let row = self.marks.raw.row(i);
        self.part_run(first_run(row))?;
        self.part_run(second_run(row))
    }

    pub fn part_rows(&self) -> Result<(), Refusal>
        requires { ObjectsSound self.now.marks.raw }
        ensures { result ≡ each_of (object_parts (bytes self.now.marks.raw) self.now.marks.raw.layout) self.now.marks.raw.layout.objects.count }
    {
        each(
            self.marks.raw.layout.objects.count,
            |i| self.object_parts(i),
        )
    }

    // The parts behind the last run, which begin at `used`.
    pub fn loose_parts(&self, used: usize) -> Result<(), Refusal>
        requires is { used ≡ parts_below (bytes self.now.marks.raw) self.now.marks.raw.layout self.now.marks.raw.layout.objects.count }
        requires within { used ≤ self.now.marks.raw.layout.parts.count }
        ensures { result ≡ part_run (bytes self.now.marks.raw) self.now.marks.raw.layout (loose_run (bytes self.now.marks.raw) self.now.marks.raw.layout) }
    {
        let loose = PartRun {
            role: Role::Loose,
            first: used,
            count: self.marks.raw.layout.parts.count - used,
        };
        self.part_run(loose)
    }
}
