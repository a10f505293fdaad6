// One part in its run.
ghost use Rattle.std.specs.Prelude.{◌≡◌, ℕ, ◌+◌, ◌<◌, ◌≤◌, is_some};
ghost use Rattle.dump.specs.Raws.{bytes};
ghost use Rattle.dump.specs.Places.{key_at, value_at};
ghost use Rattle.dump.specs.Rules.{any_below};
ghost use Rattle.shapes.specs.Cells.{same_zero};
ghost use Rattle.rules.specs.Parts.{named as named_by, reserved as is_reserved, limit_of, index_ok, name_ok, property_ok, key_ok, identity as identity_of, apart as is_apart, member_ok};

use super::role::{PartRun, Role};
use super::texts::Texts;
use dump::kinds::Tag;
use dump::row::Cell;
use numeral::digits::is_index;
use numeral::texts::is_word;
use shapes::cell::{Sought, minus_zero};

// The part `k` of a run of parts. A text that is its key is there.
#[derive(Clone, Copy)]
pub(crate) struct Part<'t, 'a> {
    pub texts: &'t Texts<'a>,
    pub run: PartRun,
    pub k: usize,
    ghost here: { run.first + k < texts.now.raw.layout.parts.count },
    ghost named: { (key_at (bytes texts.now.raw) texts.now.raw.layout (run.first + k)).tag ≡ 7 → (key_at (bytes texts.now.raw) texts.now.raw.layout (run.first + k)).low < texts.now.raw.layout.texts.count },
}

impl Part<'_, '_> {
    // The key of a part up to this one in the run.
    fn key_of(&self, k: usize) -> Cell
        requires { k ≤ self.now.k }
        ensures { result ≡ key_at (bytes self.now.texts.now.raw) self.now.texts.now.raw.layout (self.now.run.first + k) }
    {
        self.texts.raw.key(self.run.first + k)
    }

    fn key(&self) -> Cell
        ensures { result ≡ key_at (bytes self.now.texts.now.raw) self.now.texts.now.raw.layout (self.now.run.first + self.now.k) }
    {
        self.key_of(self.k)
    }

    // The key of the part `k` of the run is the text with this number.
    fn named(&self, text: u32, k: usize) -> bool
        requires { k ≤ self.now.k }
        ensures { result ≡ named_by (bytes self.now.texts.now.raw) self.now.texts.now.raw.layout text (self.now.run.first + k) }
    {
        let key = self.key_of(k);
        key.tag == Tag::Text as u32 && key.low == text
    }

    // The text is the key of a part before this one: with no heap there is no table of keys.
    fn named_before(&self, text: u32) -> bool
        ensures { result ≡ any_below (λ j. named_by (bytes self.now.texts.now.raw) self.now.texts.now.raw.layout text (self.now.run.first + j)) self.now.k }
    {
        (0..self.k).any(|j| self.named(text, j))
    }

    // A key that arrays have or lack by themselves.
    fn reserved(&self, text: u32) -> bool
        requires { text < self.now.texts.now.raw.layout.texts.count }
        ensures { result ≡ is_reserved (bytes self.now.texts.now.raw) self.now.texts.now.raw.layout text }
    {
        let text = self.texts.text(text as usize);
        // Units are compared with bytes, which `b".."` gives as they are.
        is_word(text, b"length") || is_word(text, b"__proto__")
    }

    fn index_ok(&self, array: Option<u32>) -> bool
        ensures { result ≡ index_ok (bytes self.now.texts.now.raw) self.now.texts.now.raw.layout (limit_of array) self.now.run.first self.now.k }
    {
        let key = self.key();
        let most = if Tag::try_from(key.tag) == Ok(Tag::Signed) {
            0x8000_0000
        } else {
            0xffff_ffff
        };
        if key.low >= most || array.is_some_and(|length| key.low >= length) {
            return false;
        }
        if self.k == 0 {
            return true;
        }
        let last = self.key_of(self.k - 1);
        Tag::try_from(last.tag) != Ok(Tag::Text) && last.low < key.low
    }

    fn name_ok(&self, array: bool) -> bool
        requires { (key_at (bytes self.now.texts.now.raw) self.now.texts.now.raw.layout (self.now.run.first + self.now.k)).tag ≡ 7 }
        ensures { result ≡ name_ok (bytes self.now.texts.now.raw) self.now.texts.now.raw.layout array self.now.run.first self.now.k }
    {
        let text = self.key().low;
        if is_index(self.texts.text(text as usize)) {
            return false;
        }
        if array && self.reserved(text) {
            return false;
        }
        !self.named_before(text)
    }

    fn property_ok(&self, array: Option<u32>) -> bool
        ensures { result ≡ property_ok (bytes self.now.texts.now.raw) self.now.texts.now.raw.layout (limit_of array) (is_some array) self.now.run.first self.now.k }
    {
        match Tag::try_from(self.key().tag) {
            Ok(Tag::Text) => self.name_ok(array.is_some()),
            Ok(Tag::Signed | Tag::Unsigned) => self.index_ok(array),
            _ => false,
        }
    }

    // Each of the next asks the role another thing: as closures of a role they would be no plainer.
    pub(crate) fn key_ok(&self) -> bool
        ensures { result ≡ key_ok (bytes self.now.texts.now.raw) self.now.texts.now.raw.layout self.now.run.role self.now.run.first self.now.k }
    {
        match self.run.role {
            Role::Property { array } => self.property_ok(array),
            Role::Element | Role::Member | Role::Cause => {
                Tag::try_from(self.key().tag) == Ok(Tag::Undefined)
            }
            Role::Entry | Role::Loose => true,
        }
    }

    // A part before this one is the same as `cell`. A `for`: by `any` Maps of 8,192 texts take 1.4 times as long.
    fn same_before(&self, cell: Cell) -> bool
        ensures { result ≡ any_below (λ j. same_zero cell (identity_of (bytes self.now.texts.now.raw) self.now.texts.now.raw.layout self.now.run.role (self.now.run.first + j))) self.now.k }
    {
        let raw = &self.texts.raw;
        let PartRun { role, first, .. } = self.run;
        let sought = Sought::new(cell);
        for j in 0..self.k {
            if sought.is(role.identity(raw, first + j)) {
                return true;
            }
        }
        false
    }

    fn apart(&self) -> bool
        ensures { result ≡ is_apart (bytes self.now.texts.now.raw) self.now.texts.now.raw.layout self.now.run.role self.now.run.first self.now.k }
    {
        let cell = self
            .run
            .role
            .identity(&self.texts.raw, self.run.first + self.k);
        !minus_zero(cell) && !self.same_before(cell)
    }

    pub(crate) fn member_ok(&self) -> bool
        ensures { result ≡ member_ok (bytes self.now.texts.now.raw) self.now.texts.now.raw.layout self.now.run.role self.now.run.first self.now.k }
    {
        match self.run.role {
            Role::Entry | Role::Member => self.apart(),
            Role::Property { .. } | Role::Element | Role::Cause | Role::Loose => true,
        }
    }
}
