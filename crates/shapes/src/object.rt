// An object row's words, rule by rule. Each goes by the kind, for itself: one match for all would mix rules that are
// told by other numbers.
ghost use Rattle.std.specs.Prelude.{◌≡◌, ◌+◌, ◌^◌, ◌<◌, ◌≤◌, ◌&&◌, ◌==◌, cond, nat_le, Some, None};
ghost use Rattle.shapes.specs.Rows.{words_ok, numbers_ok, parts_in, bytes_in, runs_ok, bytes_ok, flags_ok, time_ok, limits_ok, view_ok, buffers_ok, tracking};

use dump::bytes::joined;
use dump::kinds::{ErrorName, ObjectKind, ViewKind, view_kind, width};
use dump::row::Row;

// A known kind, zero in each word that it does not use, and the others in range.
pub fn words_ok(row: Row) -> bool
    ensures { result ≡ words_ok row }
{
    let Row {
        kind,
        a,
        b,
        c,
        d,
        e,
    } = row;
    let Ok(kind) = ObjectKind::try_from(kind) else {
        return false;
    };
    match kind {
        ObjectKind::Boolean => a <= 1 && [b, c, d, e] == [0; 4],
        ObjectKind::BigInt | ObjectKind::String => [b, c, d, e] == [0; 4],
        ObjectKind::Number
        | ObjectKind::RegExp
        | ObjectKind::Plain
        | ObjectKind::Map
        | ObjectKind::Set => [c, d, e] == [0; 3],
        ObjectKind::Date => [d, e] == [0; 2] && c <= 1 && (c == 0 || [a, b] == [0; 2]),
        ObjectKind::Sparse => [d, e] == [0; 2],
        ObjectKind::Dense => e == 0,
        ObjectKind::Buffer => e == 0 && c <= 1 && (c == 1 || d == 0),
        ObjectKind::View => ViewKind::try_from(b).is_ok() && e <= 3,
        ObjectKind::Error => ErrorName::try_from(a).is_ok() && e <= 1,
    }
}

// Texts and objects that there are. A cell's rule has the same two limits, but other words and other cases.
pub fn numbers_ok(row: Row, texts: usize, objects: usize) -> bool
    ensures { result ≡ numbers_ok texts objects row }
{
    match ObjectKind::try_from(row.kind) {
        Ok(ObjectKind::BigInt | ObjectKind::String | ObjectKind::RegExp) => {
            (row.a as usize) < texts
        }
        Ok(ObjectKind::View) => (row.a as usize) < objects,
        Ok(ObjectKind::Error) => row.b as usize <= texts && row.c as usize <= texts,
        _ => true,
    }
}

// How many parts a row has, and below bytes, with the bound that its callers' sums need.
pub fn parts_in(row: Row) -> usize
    ensures { (result ≡ parts_in row) × (result < 2 ^ 33) }
{
    match ObjectKind::try_from(row.kind) {
        Ok(ObjectKind::Plain | ObjectKind::Sparse | ObjectKind::Map | ObjectKind::Set) => {
            row.b as usize
        }
        Ok(ObjectKind::Dense) => row.b as usize + row.d as usize,
        Ok(ObjectKind::Error) => row.e as usize,
        _ => 0,
    }
}

// How many bytes a row has.
pub fn bytes_in(row: Row) -> usize
    ensures { (result ≡ bytes_in row) × (result < 2 ^ 32) }
{
    match ObjectKind::try_from(row.kind) {
        Ok(ObjectKind::Buffer) => row.b as usize,
        _ => 0,
    }
}

// A run of `count` records from the record `first` on begins at `begin` and ends within `total`.
fn run_ok(first: u32, count: u32, begin: usize, total: usize) -> bool
    requires { (begin ≤ total) × (total ≤ 1048576) }
    ensures { result ≡ (first == begin && nat_le (begin + count) total) }
{
    first as usize == begin && begin + count as usize <= total
}

// `begin` and `total` are limits for this one row, and change from call to call, so they are no type.
// The runs of parts begin at `begin`, one behind the other, and end within `total`.
pub fn runs_ok(row: Row, begin: usize, total: usize) -> bool
    requires { (begin ≤ total) × (total ≤ 65536) }
    ensures { result ≡ runs_ok row begin total }
{
    match ObjectKind::try_from(row.kind) {
        Ok(ObjectKind::Plain | ObjectKind::Sparse | ObjectKind::Map | ObjectKind::Set) => {
            run_ok(row.a, row.b, begin, total)
        }
        Ok(ObjectKind::Dense) => {
            run_ok(row.a, row.b, begin, total)
                && run_ok(row.c, row.d, begin + row.b as usize, total)
        }
        Ok(ObjectKind::Error) => run_ok(row.d, row.e, begin, total),
        _ => true,
    }
}

// The run of bytes of a buffer begins at `begin` and ends within `total`.
pub fn bytes_ok(row: Row, begin: usize, total: usize) -> bool
    requires { (begin ≤ total) × (total ≤ 1048576) }
    ensures { result ≡ bytes_ok row begin total }
{
    match ObjectKind::try_from(row.kind) {
        Ok(ObjectKind::Buffer) => run_ok(row.a, row.b, begin, total),
        _ => true,
    }
}

// Bits of a regular expression's flags, a word of the dump: a type of flags would want contracts of its own.
const LINEAR: u32 = 64;

const UNICODE: u32 = 16;

const UNICODE_SETS: u32 = 256;

#[tactic(auto, using(crate::proofs::Bits::flag_bits))]
fn flags_ok(flags: u32) -> bool
    ensures { result ≡ flags_ok flags }
{
    flags < 512 && flags & LINEAR == 0 && (flags & UNICODE == 0 || flags & UNICODE_SETS == 0)
}

// The most milliseconds either way, and their negative in two's complement.
const LATEST: u64 = 8_640_000_000_000_000;

const EARLIEST: u64 = 18_438_104_073_709_551_616;

fn time_ok(time: u64) -> bool
    ensures { result ≡ time_ok time }
{
    time <= LATEST || time >= EARLIEST
}

// Flags and times.
pub fn limits_ok(row: Row) -> bool
    ensures { result ≡ limits_ok row }
{
    match ObjectKind::try_from(row.kind) {
        Ok(ObjectKind::RegExp) => flags_ok(row.b),
        Ok(ObjectKind::Date) => time_ok(joined(row.a, row.b)),
        _ => true,
    }
}

// The most bytes that a resizable buffer may have; none if it has one size.
pub fn most_bytes(buffer: Row) -> Option<u32>
    ensures { result ≡ cond (buffer.c == 1) (Some buffer.d) None }
{
    (buffer.c == 1).then_some(buffer.d)
}

// How many elements a view has; none if it tracks its buffer's length.
pub fn elements(view: Row) -> Option<u32>
    ensures { result ≡ cond (tracking view) None (Some view.d) }
{
    (view.e % 2 == 0).then_some(view.d)
}

// A view of elements of `size` bytes on the row `on`.
fn view_ok(row: Row, on: Row, size: usize) -> bool
    requires { (0 < size) × (size ≤ 8) }
    ensures { result ≡ view_ok row on size }
{
    let length = on.b as usize;
    let offset = row.c as usize;
    let covered = elements(row).map_or(0, |count| count as usize * size);
    let fits = offset % size == 0 && length % size == 0 && offset + covered <= length;
    let resizable = most_bytes(on).is_some();
    let flags_fit = if resizable { row.e >= 2 } else { row.e == 0 };
    ObjectKind::try_from(on.kind) == Ok(ObjectKind::Buffer) && fits && flags_fit
}

// A resizable buffer is no longer than its maximum; a view stands on a buffer, the row `on`.
pub fn buffers_ok(row: Row, on: Row) -> bool
    ensures { result ≡ buffers_ok row on }
{
    match ObjectKind::try_from(row.kind) {
        Ok(ObjectKind::Buffer) => most_bytes(row).is_none_or(|most| row.b <= most),
        Ok(ObjectKind::View) => view_ok(row, on, width(view_kind(row.b))),
        _ => true,
    }
}
