// For each text whether it is that of a BigInt.
ghost use Rattle.rules.specs.Texts.{Marked};

use dump::raw::Raw;

// Many values may share one long text, which is read for this only once. The flags are lent, as many as there may be
// texts: there is no heap, and held here they would be copied.
#[derive(Clone, Copy)]
pub struct Marks<'m, 'a> {
    pub raw: Raw<'a>,
    pub flags: &'m [bool; 8192],
    ghost marked: { Marked raw flags.now },
}
