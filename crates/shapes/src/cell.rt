// A value's words: tags, numbers inside their sections, and SameValueZero.
ghost use Rattle.std.specs.Prelude.{◌≡◌};
ghost use Rattle.shapes.specs.Cells.{tag_ok, place_ok, is_number, number_of, sort_of, same_number, same_zero, minus_zero};

use dump::bytes::joined;
use dump::kinds::Tag;
use dump::row::Cell;
use std::num::f64_from_bits_with_nan;

// A known tag, and zero in each word that it does not use; a hole only where `holes` lets it stand.
pub fn tag_ok(cell: Cell, holes: bool) -> bool
    ensures { result ≡ tag_ok holes cell }
{
    let Ok(tag) = Tag::try_from(cell.tag) else {
        return false;
    };
    match tag {
        Tag::Undefined | Tag::Null => cell.low == 0 && cell.high == 0,
        Tag::Boolean => cell.low <= 1 && cell.high == 0,
        Tag::Signed | Tag::Unsigned | Tag::BigInt | Tag::Text | Tag::Object => cell.high == 0,
        Tag::Double => true,
        Tag::Hole => holes && cell.low == 0 && cell.high == 0,
    }
}

// A text or an object that there is.
pub fn place_ok(cell: Cell, texts: usize, objects: usize) -> bool
    ensures { result ≡ place_ok texts objects cell }
{
    match Tag::try_from(cell.tag) {
        Ok(Tag::BigInt | Tag::Text) => (cell.low as usize) < texts,
        Ok(Tag::Object) => (cell.low as usize) < objects,
        _ => true,
    }
}

// Apart from `number`: with one function that answers an `Option`, Sets of 16,384 whole numbers take 2.4 times as long.
fn is_number(cell: Cell) -> bool
    ensures { result ≡ is_number cell }
{
    cell.tag == Tag::Signed as u32
        || cell.tag == Tag::Unsigned as u32
        || cell.tag == Tag::Double as u32
}

// A number of any tag as a double, which holds it exactly.
fn number(cell: Cell) -> f64
    ensures { result ≡ number_of cell }
{
    if cell.tag == Tag::Signed as u32 {
        f64::from(cell.low.cast_signed())
    } else if cell.tag == Tag::Unsigned as u32 {
        f64::from(cell.low)
    } else {
        f64_from_bits_with_nan(joined(cell.low, cell.high))
    }
}

// Equal as doubles, all NaN alike.
fn same_number(x: f64, y: f64) -> bool
    ensures { result ≡ same_number x y }
{
    x == y || x.is_nan() && y.is_nan()
}

// SameValueZero: texts and BigInts go by their text's number, since no text occurs twice.
pub fn same_zero(v: Cell, w: Cell) -> bool
    ensures { result ≡ same_zero v w }
{
    if is_number(v) && is_number(w) {
        same_number(number(v), number(w))
    } else {
        v == w
    }
}

// What a cell is to SameValueZero: NaN is no number that `==` finds.
#[derive(Clone, Copy)]
enum Sort {
    Number(f64),
    Nan,
    Other,
}

// A cell that is looked for among many. What it is, is found once: by `same_zero` of each, Sets of 16,384 whole numbers
// take 2.7 times as long.
#[derive(Clone, Copy)]
pub struct Sought {
    pub cell: Cell,
    sort: Sort,
    ghost found: { sort ≡ sort_of cell },
}

impl Sought {
    pub fn new(cell: Cell) -> Sought
        ensures { result.cell ≡ cell }
    {
        let sort = if !is_number(cell) {
            Sort::Other
        } else if number(cell).is_nan() {
            Sort::Nan
        } else {
            Sort::Number(number(cell))
        };
        Sought { cell, sort }
    }

    // As `same_zero` tells.
    pub fn is(&self, other: Cell) -> bool
        ensures { result ≡ same_zero self.now.cell other }
    {
        match self.sort {
            Sort::Number(x) => is_number(other) && x == number(other),
            Sort::Nan => same_zero(self.cell, other),
            Sort::Other => self.cell == other,
        }
    }
}

const MINUS_ZERO: Cell = Cell {
    tag: Tag::Double as u32,
    low: 0,
    high: 0x8000_0000,
};

pub fn minus_zero(cell: Cell) -> bool
    ensures { result ≡ minus_zero cell }
{
    cell == MINUS_ZERO
}
