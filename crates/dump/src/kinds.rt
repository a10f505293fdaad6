// The kinds of objects, values and views, and the names of errors: each in the order of the numbers that it has in a dump.
ghost use Rattle.std.specs.Prelude.{◌≡◌};
ghost use Rattle.dump.specs.Kinds.{view_kind, error_name, width as width_of, IsObjectKind, IsTag, IsViewKind, IsErrorName};

#[derive(Clone, Copy, PartialEq, Eq)]
pub enum ObjectKind {
    Boolean,
    Number,
    BigInt,
    String,
    RegExp,
    Date,
    Plain,
    Sparse,
    Dense,
    Map,
    Set,
    Buffer,
    View,
    Error,
}

// What a value is.
#[derive(Clone, Copy, PartialEq, Eq)]
pub enum Tag {
    Undefined,
    Null,
    Boolean,
    Signed,
    Unsigned,
    Double,
    BigInt,
    Text,
    Object,
    Hole,
}

#[derive(Clone, Copy, PartialEq, Eq)]
pub enum ViewKind {
    Int8Array,
    Uint8Array,
    Uint8ClampedArray,
    Int16Array,
    Uint16Array,
    Int32Array,
    Uint32Array,
    Float32Array,
    Float64Array,
    BigInt64Array,
    BigUint64Array,
    DataView,
}

#[derive(Clone, Copy, PartialEq, Eq)]
pub enum ErrorName {
    Error,
    EvalError,
    RangeError,
    ReferenceError,
    SyntaxError,
    TypeError,
    UriError,
}

// A number past the last kind, tag or name. The four conversions differ in their words: no derive of the kit writes them.
// The first two are inlined, since readers ask them of each row and cell: as calls, the kind of an Error object takes 1.6 to
// 2.5 times as long.
#[derive(Clone, Copy, Debug, PartialEq, Eq)]
pub struct Unknown(pub u32);

impl TryFrom<u32> for ObjectKind {
    type Error = Unknown;

    ghost try_from_gives = { IsObjectKind };

    #[inline(always)]
    fn try_from(number: u32) -> Result<ObjectKind, Unknown> {
        match number {
            0 => Ok(ObjectKind::Boolean),
            1 => Ok(ObjectKind::Number),
            2 => Ok(ObjectKind::BigInt),
            3 => Ok(ObjectKind::String),
            4 => Ok(ObjectKind::RegExp),
            5 => Ok(ObjectKind::Date),
            6 => Ok(ObjectKind::Plain),
            7 => Ok(ObjectKind::Sparse),
            8 => Ok(ObjectKind::Dense),
            9 => Ok(ObjectKind::Map),
            10 => Ok(ObjectKind::Set),
            11 => Ok(ObjectKind::Buffer),
            12 => Ok(ObjectKind::View),
            13 => Ok(ObjectKind::Error),
            _ => Err(Unknown(number)),
        }
    }
}

impl TryFrom<u32> for Tag {
    type Error = Unknown;

    ghost try_from_gives = { IsTag };

    #[inline(always)]
    fn try_from(number: u32) -> Result<Tag, Unknown> {
        match number {
            0 => Ok(Tag::Undefined),
            1 => Ok(Tag::Null),
            2 => Ok(Tag::Boolean),
            3 => Ok(Tag::Signed),
            4 => Ok(Tag::Unsigned),
            5 => Ok(Tag::Double),
            6 => Ok(Tag::BigInt),
            7 => Ok(Tag::Text),
            8 => Ok(Tag::Object),
            9 => Ok(Tag::Hole),
            _ => Err(Unknown(number)),
        }
    }
}

impl TryFrom<u32> for ViewKind {
    type Error = Unknown;

    ghost try_from_gives = { IsViewKind };

    fn try_from(number: u32) -> Result<ViewKind, Unknown> {
        match number {
            0 => Ok(ViewKind::Int8Array),
            1 => Ok(ViewKind::Uint8Array),
            2 => Ok(ViewKind::Uint8ClampedArray),
            3 => Ok(ViewKind::Int16Array),
            4 => Ok(ViewKind::Uint16Array),
            5 => Ok(ViewKind::Int32Array),
            6 => Ok(ViewKind::Uint32Array),
            7 => Ok(ViewKind::Float32Array),
            8 => Ok(ViewKind::Float64Array),
            9 => Ok(ViewKind::BigInt64Array),
            10 => Ok(ViewKind::BigUint64Array),
            11 => Ok(ViewKind::DataView),
            _ => Err(Unknown(number)),
        }
    }
}

impl TryFrom<u32> for ErrorName {
    type Error = Unknown;

    ghost try_from_gives = { IsErrorName };

    fn try_from(number: u32) -> Result<ErrorName, Unknown> {
        match number {
            0 => Ok(ErrorName::Error),
            1 => Ok(ErrorName::EvalError),
            2 => Ok(ErrorName::RangeError),
            3 => Ok(ErrorName::ReferenceError),
            4 => Ok(ErrorName::SyntaxError),
            5 => Ok(ErrorName::TypeError),
            6 => Ok(ErrorName::UriError),
            _ => Err(Unknown(number)),
        }
    }
}

// The view kind with a number; a number past the last means the last.
pub fn view_kind(number: u32) -> ViewKind
    ensures { result ≡ view_kind number }
{
    ViewKind::try_from(number).unwrap_or(ViewKind::DataView)
}

// The error name with a number; a number past the last means the last.
pub fn error_name(number: u32) -> ErrorName
    ensures { result ≡ error_name number }
{
    ErrorName::try_from(number).unwrap_or(ErrorName::UriError)
}

// How many bytes an element of a view takes.
pub fn width(kind: ViewKind) -> usize
    ensures { result ≡ width_of kind }
{
    match kind {
        ViewKind::Int8Array | ViewKind::Uint8Array | ViewKind::Uint8ClampedArray => 1,
        ViewKind::Int16Array | ViewKind::Uint16Array => 2,
        ViewKind::Int32Array | ViewKind::Uint32Array | ViewKind::Float32Array => 4,
        ViewKind::Float64Array | ViewKind::BigInt64Array | ViewKind::BigUint64Array => 8,
        ViewKind::DataView => 1,
    }
}
