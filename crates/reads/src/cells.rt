// Values and keys, read off their words.
ghost use Rattle.std.specs.Prelude.{◌≡◌, ◌<◌, true};
ghost use Rattle.dump.specs.Raws.{bytes};
ghost use Rattle.dump.specs.Meaning.{value_of, key_of};
ghost use Rattle.dump.specs.Places.{text_of};
ghost use Rattle.dump.specs.Texts.{text_units};
ghost use Rattle.shapes.specs.Cells.{place_ok};
ghost use Rattle.reads.specs.Typed.{TextFits, value_in, ValueFits, ValueThere, key_in, KeyFits};

use super::value::{Key, Value};
use dump::bytes::joined;
use dump::kinds::Tag;
use dump::row::Cell;
use dump::text::Text;
use rules::texts::Texts;

// A text, and that it is one of this dump's, which its type does not say.
pub(crate) fn text_of<'a>(texts: &Texts<'a>, i: usize) -> Text<'a>
    requires { i < texts.now.raw.layout.texts.count }
    ensures is { text_units result ≡ text_of (bytes texts.now.raw) texts.now.raw.layout i }
    ensures fits { TextFits (bytes texts.now.raw) result }
{
    texts.text(i)
}

// The value that a cell holds. That an object in it is there is promised here and by what hands it on: a type for an
// object's number would want the heap beside it.
pub fn value_of<'a>(texts: &Texts<'a>, cell: Cell) -> Value<'a>
    requires { place_ok texts.now.raw.layout.texts.count texts.now.raw.layout.objects.count cell ≡ true }
    ensures is { value_in result ≡ value_of (bytes texts.now.raw) texts.now.raw.layout cell }
    ensures fits { ValueFits (bytes texts.now.raw) result }
    ensures there { ValueThere texts.now.raw.layout.objects.count result }
{
    let Ok(tag) = Tag::try_from(cell.tag) else {
        return Value::Hole;
    };
    match tag {
        Tag::Undefined => Value::Undefined,
        Tag::Null => Value::Null,
        Tag::Boolean => Value::Boolean(cell.low == 1),
        Tag::Signed => Value::Whole(i64::from(cell.low.cast_signed())),
        Tag::Unsigned => Value::Whole(i64::from(cell.low)),
        Tag::Double => Value::Double(joined(cell.low, cell.high)),
        Tag::BigInt => Value::BigInt(text_of(texts, cell.low as usize)),
        Tag::Text => Value::Text(text_of(texts, cell.low as usize)),
        Tag::Object => Value::Object(cell.low as usize),
        Tag::Hole => Value::Hole,
    }
}

// The key that a cell holds: a text, or an index.
pub fn key_of<'a>(texts: &Texts<'a>, cell: Cell) -> Key<'a>
    requires { cell.tag ≡ 7 → cell.low < texts.now.raw.layout.texts.count }
    ensures is { key_in result ≡ key_of (bytes texts.now.raw) texts.now.raw.layout cell }
    ensures fits { KeyFits (bytes texts.now.raw) result }
{
    match Tag::try_from(cell.tag) {
        Ok(Tag::Text) => Key::Name(text_of(texts, cell.low as usize)),
        _ => Key::Index(cell.low),
    }
}
