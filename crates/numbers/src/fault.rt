// Why a number did not go out: the sink's or the speller's fault, whole.
ghost use Rattle.std.specs.Prelude.{◌≡◌};
ghost use Rattle.numbers.specs.declared.fault.NumberFault.TheVariants.{Sinking, Spelling};

use sink::SinkFault;
use speller::fault::SpellFault;

#[derive(Clone, Copy, PartialEq, Eq, Debug)]
pub enum NumberFault {
    Sinking(SinkFault),
    Spelling(SpellFault),
}

impl From<SinkFault> for NumberFault {
    ghost from_gives = { λ e r. r ≡ Sinking e };

    fn from(fault: SinkFault) -> NumberFault {
        NumberFault::Sinking(fault)
    }
}

impl From<SpellFault> for NumberFault {
    ghost from_gives = { λ e r. r ≡ Spelling e };

    fn from(fault: SpellFault) -> NumberFault {
        NumberFault::Spelling(fault)
    }
}
