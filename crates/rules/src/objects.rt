// Object rows.
ghost use Rattle.std.specs.Prelude.{◌≡◌, ℕ, ◌+◌, ◌*◌, ◌<◌, ◌≤◌, true};
ghost use Rattle.dump.specs.Raws.{bytes};
ghost use Rattle.dump.specs.Places.{row_at};
ghost use Rattle.shapes.specs.Rows.{numbers_ok, buffers_ok};
ghost use Rattle.rules.specs.Objects.{bigint_row, parts_below, bytes_below, object_row, object_rows, ObjectsSound};

use super::marks::Marks;
use dump::kinds::ObjectKind;
use dump::raw::Raw;
use dump::refusal::{Refusal, Rule, Site};
use dump::row::Row;
use shapes::object::{
    buffers_ok, bytes_in, bytes_ok, limits_ok, numbers_ok, parts_in, runs_ok, words_ok,
};

impl Marks<'_, '_> {
    // A row whose numbers are in range is asked for here, below and by `kind_of`: a type for it would be made for one
    // call each. A BigInt object has the text of one. A row has a kind where a cell has a tag, so this is no `bigint_ok`.
    fn bigint_row(&self, row: Row) -> bool
        requires { numbers_ok self.now.raw.layout.texts.count self.now.raw.layout.objects.count row ≡ true }
        ensures { result ≡ bigint_row (bytes self.now.raw) self.now.raw.layout row }
    {
        ObjectKind::try_from(row.kind) != Ok(ObjectKind::BigInt) || self.flags[row.a as usize]
    }

    // The rule of buffers, where a view's buffer may be a later row.
    fn buffer_row(&self, row: Row) -> bool
        requires { numbers_ok self.now.raw.layout.texts.count self.now.raw.layout.objects.count row ≡ true }
        ensures { result ≡ buffers_ok row (row_at (bytes self.now.raw) self.now.raw.layout row.a) }
    {
        let on = if ObjectKind::try_from(row.kind) == Ok(ObjectKind::View) {
            self.raw.row(row.a as usize)
        } else {
            row
        };
        buffers_ok(row, on)
    }

    // The row `i`, by its rules in their order, as a text's row. The rows before it have `parts` parts and `octets` bytes,
    // two numbers with their bounds: as a type they would be made anew for each row.
    fn object_row(&self, i: usize, parts: usize, octets: usize) -> Result<(), Refusal>
        requires here { i < self.now.raw.layout.objects.count }
        requires parts { (parts ≡ parts_below (bytes self.now.raw) self.now.raw.layout i) × (parts ≤ self.now.raw.layout.parts.count) }
        requires octets { (octets ≡ bytes_below (bytes self.now.raw) self.now.raw.layout i) × (octets ≤ self.now.raw.layout.octets.count) }
        ensures { result ≡ object_row (bytes self.now.raw) self.now.raw.layout i }
    {
        let row = self.raw.row(i);
        let layout = self.raw.layout;
        if !words_ok(row) {
            return Err(Refusal::at(Rule::Words, Site::Objects, i));
        }
        if !numbers_ok(row, layout.texts.count, layout.objects.count)
            || !runs_ok(row, parts, layout.parts.count)
            || !bytes_ok(row, octets, layout.octets.count)
        {
            return Err(Refusal::at(Rule::Place, Site::Objects, i));
        }
        if !self.bigint_row(row) {
            return Err(Refusal::at(Rule::Numeral, Site::Objects, i));
        }
        if !limits_ok(row) {
            return Err(Refusal::at(Rule::Limit, Site::Objects, i));
        }
        if !self.buffer_row(row) {
            return Err(Refusal::at(Rule::Buffer, Site::Objects, i));
        }
        Ok(())
    }

    // A `for`: two sums go along from row to row, each with its bound, which `each` does not carry and a `try_fold`
    // would carry as a pair.
    pub fn object_rows(&self) -> Result<(), Refusal>
        ensures { result ≡ object_rows (bytes self.now.raw) self.now.raw.layout }
    {
        let mut parts = 0;
        let mut octets = 0;
        for i in 0..self.raw.layout.objects.count {
            self.object_row(i, parts, octets)?;
            let row = self.raw.row(i);
            parts += parts_in(row);
            octets += bytes_in(row);
        }
        Ok(())
    }
}

// A dump whose object rows keep their rules.
#[derive(Clone, Copy)]
pub struct Objects<'a> {
    pub raw: Raw<'a>,
    ghost sound: { ObjectsSound raw },
}

impl Objects<'_> {
    // How many parts all rows have. It and the next differ in the summand: one function for both would want the bound
    // of the sum for any closure, as a clause.
    pub fn all_parts(&self) -> usize
        ensures is { result ≡ parts_below (bytes self.now.raw) self.now.raw.layout self.now.raw.layout.objects.count }
        ensures within { result ≤ self.now.raw.layout.parts.count }
    {
        (0..self.raw.layout.objects.count)
            .map(|i| parts_in(self.raw.row(i)))
            .sum()
    }

    // How many bytes all rows have.
    pub fn all_octets(&self) -> usize
        ensures is { result ≡ bytes_below (bytes self.now.raw) self.now.raw.layout self.now.raw.layout.objects.count }
        ensures within { result ≤ self.now.raw.layout.octets.count }
    {
        (0..self.raw.layout.objects.count)
            .map(|i| bytes_in(self.raw.row(i)))
            .sum()
    }
}
