// Why a double was not spelled.
ghost use Rattle.std.specs.Prelude.{◌≡◌};
ghost use Rattle.speller.specs.Faults.{refusal};

#[derive(Clone, Copy, PartialEq, Eq, Debug)]
pub enum SpellFault {
    Short = 24,
    Unspelled = 11,
}

impl SpellFault {
    // The number that the refusal goes by.
    pub fn number(self) -> u8
        ensures { result ≡ (refusal self).number }
    {
        self as u8
    }
}
