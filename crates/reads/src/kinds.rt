// An object's kind, read off its row.
ghost use Rattle.std.specs.Prelude.{◌≡◌, ◌+◌, ◌≤◌, true, if◌then◌else◌, Some, None, nat_eq};
ghost use Rattle.dump.specs.Raws.{bytes};
ghost use Rattle.dump.specs.Meaning.{joined as joined_of, signed64, maybe_text, kind_of};
ghost use Rattle.shapes.specs.Rows.{numbers_ok};
ghost use Rattle.reads.specs.Typed.{maybe_in, MaybeFits, kind_in, KindFits};

use super::cells::text_of;
use super::object::Kind;
use dump::bytes::joined;
use dump::kinds::{ObjectKind, error_name, view_kind};
use dump::row::Row;
use dump::text::Text;
use rules::texts::Texts;
use shapes::object::{elements, most_bytes};

// The text with a number counted from 1, none for 0.
fn maybe_text<'a>(texts: &Texts<'a>, number: u32) -> Option<Text<'a>>
    requires { number ≤ texts.now.raw.layout.texts.count }
    ensures is { maybe_in result ≡ maybe_text (bytes texts.now.raw) texts.now.raw.layout number }
    ensures fits { MaybeFits (bytes texts.now.raw) result }
{
    // By `checked_sub` and `map` was tried: that it gives this text did not close.
    if number == 0 {
        None
    } else {
        Some(text_of(texts, number as usize - 1))
    }
}

// The milliseconds of a date.
fn time(row: Row) -> Option<i64>
    ensures { result ≡ (if nat_eq row.c 1 then None else Some (signed64 (joined_of row.a row.b))) }
{
    (row.c != 1).then_some(joined(row.a, row.b).cast_signed())
}

// What the row of an object says besides its parts.
pub fn kind_of<'a>(texts: &Texts<'a>, row: Row) -> Kind<'a>
    requires placed { numbers_ok texts.now.raw.layout.texts.count texts.now.raw.layout.objects.count row ≡ true }
    requires known { row.kind ≤ 13 }
    requires within { row.kind ≡ 11 → row.a + row.b ≤ texts.now.raw.layout.octets.count }
    ensures is { kind_in result ≡ kind_of (bytes texts.now.raw) texts.now.raw.layout row }
    ensures fits { KindFits (bytes texts.now.raw) result }
{
    // There is no `Err` here, by `known`: with an `unreachable!()` of its own an error takes a third longer.
    match ObjectKind::try_from(row.kind) {
        Ok(ObjectKind::Boolean) => Kind::BooleanObject(row.a == 1),
        Ok(ObjectKind::Number) => Kind::NumberObject(joined(row.a, row.b)),
        Ok(ObjectKind::BigInt) => Kind::BigIntObject(text_of(texts, row.a as usize)),
        Ok(ObjectKind::String) => Kind::StringObject(text_of(texts, row.a as usize)),
        Ok(ObjectKind::RegExp) => Kind::RegExp {
            pattern: text_of(texts, row.a as usize),
            flags: row.b,
        },
        Ok(ObjectKind::Date) => Kind::Date(time(row)),
        Ok(ObjectKind::Plain) => Kind::Plain,
        Ok(ObjectKind::Sparse) => Kind::Sparse { length: row.c },
        Ok(ObjectKind::Dense) => Kind::Dense {
            elements: row.b as usize,
        },
        Ok(ObjectKind::Map) => Kind::Map,
        Ok(ObjectKind::Set) => Kind::Set,
        Ok(ObjectKind::Buffer) => {
            let start = texts.raw.layout.octets.start + row.a as usize;
            Kind::Buffer {
                octets: &texts.raw.dump[start..start + row.b as usize],
                maximum: most_bytes(row),
            }
        }
        Ok(ObjectKind::View) => Kind::View {
            kind: view_kind(row.b),
            offset: row.c,
            length: elements(row),
        },
        Ok(ObjectKind::Error) | Err(_) => Kind::Error {
            name: error_name(row.a),
            message: maybe_text(texts, row.b),
            stack: maybe_text(texts, row.c),
        },
    }
}
