// A value and a key, whose texts are read in place.
use dump::text::Text;

// A whole number has 32 bits, signed or not; a double is its 64 bits; an object is its number in the dump,
// which is the arena: there is no heap for boxes. A hole is a missing element: an `Option` in the one kind of part that may
// have it would say in two types what the definition of a heap says in one.
#[derive(Clone, Copy)]
pub enum Value<'a> {
    Undefined,
    Null,
    Hole,
    Boolean(bool),
    Whole(i64),
    Double(u64),
    BigInt(Text<'a>),
    Text(Text<'a>),
    Object(usize),
}

#[derive(Clone, Copy)]
pub enum Key<'a> {
    Index(u32),
    Name(Text<'a>),
}
