// What a part is to its object, and the runs of parts that a row has.
ghost use Rattle.std.specs.Prelude.{◌≡◌, ◌<◌};
ghost use Rattle.dump.specs.Raws.{bytes};
ghost use Rattle.rules.specs.Parts.{first_run, second_run, may_be_hole, identity as identity_of};

use dump::kinds::ObjectKind;
use dump::raw::Raw;
use dump::row::{Cell, Row};

// The index keys of an array's properties are below `array`, and arrays' own keys are refused.
// A part of no object is loose.
#[derive(Clone, Copy)]
pub enum Role {
    Property { array: Option<u32> },
    Element,
    Entry,
    Member,
    Cause,
    Loose,
}

// Parts that follow one another in one role, by their numbers, as refusals name them.
#[derive(Clone, Copy)]
pub struct PartRun {
    pub role: Role,
    pub first: usize,
    pub count: usize,
}

// A row with no parts has an empty run, which is no case of its own for what goes over runs.
pub(crate) fn first_run(row: Row) -> PartRun
    ensures { result ≡ first_run row }
{
    let none = PartRun {
        role: Role::Loose,
        first: 0,
        count: 0,
    };
    let Ok(kind) = ObjectKind::try_from(row.kind) else {
        return none;
    };
    let from_a = PartRun {
        first: row.a as usize,
        count: row.b as usize,
        ..none
    };
    match kind {
        ObjectKind::Plain => PartRun {
            role: Role::Property { array: None },
            ..from_a
        },
        ObjectKind::Sparse => PartRun {
            role: Role::Property { array: Some(row.c) },
            ..from_a
        },
        ObjectKind::Dense => PartRun {
            role: Role::Element,
            ..from_a
        },
        ObjectKind::Map => PartRun {
            role: Role::Entry,
            ..from_a
        },
        ObjectKind::Set => PartRun {
            role: Role::Member,
            ..from_a
        },
        ObjectKind::Error => PartRun {
            role: Role::Cause,
            first: row.d as usize,
            count: row.e as usize,
        },
        _ => none,
    }
}

// The properties of a dense array, which has no index keys beside its elements. Both runs at once, as an array,
// would be no plainer: the second is that of one kind.
pub(crate) fn second_run(row: Row) -> PartRun
    ensures { result ≡ second_run row }
{
    let dense = ObjectKind::try_from(row.kind) == Ok(ObjectKind::Dense);
    PartRun {
        role: Role::Property { array: Some(0) },
        first: if dense { row.c as usize } else { 0 },
        count: if dense { row.d as usize } else { 0 },
    }
}

impl Role {
    // What tells the entries of a Map, or the members of a Set, apart.
    pub(crate) fn identity(self, raw: &Raw<'_>, p: usize) -> Cell
        requires { p < raw.now.layout.parts.count }
        ensures { result ≡ identity_of (bytes raw.now) raw.now.layout self p }
    {
        match self {
            Role::Property { .. } | Role::Entry => raw.key(p),
            Role::Element | Role::Member | Role::Cause | Role::Loose => raw.value(p),
        }
    }

    pub(crate) fn may_be_hole(self) -> bool
        ensures { result ≡ may_be_hole self }
    {
        matches!(self, Role::Element)
    }
}
