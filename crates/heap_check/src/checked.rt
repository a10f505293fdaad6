// A dump that was found sound, read in place.
ghost use Rattle.std.specs.Prelude.{◌≡◌, true, is_ok, Ok};
ghost use Rattle.std.proofs.Props.{props};
ghost use Rattle.std.proofs.Math.Pow.{are_bytes};
ghost use Rattle.dump.specs.Layouts.{layout_of};
ghost use Rattle.rules.specs.Verdicts.{rows_of};

use dump::raw::Raw;

mod readers;

// May be kept by whoever reads, beside the heap and after it.
#[derive(Clone, Copy)]
pub struct Checked<'a> {
    pub raw: Raw<'a>,
    ghost bytes: { are_bytes raw.dump.now ≡ true },
    ghost laid: { layout_of raw.dump.now ≡ Ok raw.layout } by { Prim.hlevel props },
    ghost sound: { is_ok (rows_of raw.dump.now raw.layout) ≡ true },
}
