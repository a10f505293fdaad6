// What an object has besides its parts, and a part.
use super::value::{Key, Value};
use dump::kinds::{ErrorName, ViewKind};
use dump::text::Text;

// The flags of a regular expression are bits, as in the definition of a heap, and a date is its milliseconds, none if invalid.
// A dense array's parts are its elements, then its properties; a view with no length tracks its buffer's.
#[derive(Clone, Copy)]
pub enum Kind<'a> {
    BooleanObject(bool),
    NumberObject(u64),
    BigIntObject(Text<'a>),
    StringObject(Text<'a>),
    RegExp {
        pattern: Text<'a>,
        flags: u32,
    },
    Date(Option<i64>),
    Plain,
    Sparse {
        length: u32,
    },
    Dense {
        elements: usize,
    },
    Map,
    Set,
    Buffer {
        octets: &'a [u8],
        maximum: Option<u32>,
    },
    View {
        kind: ViewKind,
        offset: u32,
        length: Option<u32>,
    },
    Error {
        name: ErrorName,
        message: Option<Text<'a>>,
        stack: Option<Text<'a>>,
    },
}

// Below a view is its buffer.
#[derive(Clone, Copy)]
pub enum Part<'a> {
    Property(Key<'a>, Value<'a>),
    Element(Value<'a>),
    Entry(Value<'a>, Value<'a>),
    Member(Value<'a>),
    Below(usize),
    Cause(Value<'a>),
}
