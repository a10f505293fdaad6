// The records of the sections of objects, parts and the root, as words.

// Words as they stand in the dump, so a tag or a kind may be unknown, and only the kind says what the others
// mean: names for them would be those of one kind. Whoever asks for the kind or the tag asks `try_from` of the word.

// A value: what it is, and two words of content.
#[derive(Clone, Copy, Debug, PartialEq, Eq)]
pub struct Cell {
    pub tag: u32,
    pub low: u32,
    pub high: u32,
}

// An object: its kind, and five words whose meaning the kind gives.
#[derive(Clone, Copy)]
pub struct Row {
    pub kind: u32,
    pub a: u32,
    pub b: u32,
    pub c: u32,
    pub d: u32,
    pub e: u32,
}

// A run of units: the byte where it begins, and how many units it has. It may leave the dump: one that lies in it is a `Text`.
// A section counts records of any size, and a run of parts counts parts: one type for all would mix them up.
#[derive(Clone, Copy)]
pub struct Run {
    pub start: usize,
    pub count: usize,
}
