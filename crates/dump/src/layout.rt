// Where the seven sections of a dump stand.

// Where the records of a section begin, and how many they are. As slices the sections would each want a fact
// of which part of the dump it is: the meaning of a dump goes by the places of its bytes.
#[derive(Clone, Copy)]
pub struct Section {
    pub start: usize,
    pub count: usize,
}

#[derive(Clone, Copy)]
pub struct Layout {
    pub texts: Section,
    pub units: Section,
    pub numerals: Section,
    pub octets: Section,
    pub objects: Section,
    pub parts: Section,
    pub root: Section,
}
