// Why a dump is refused: the rule that fails, and the section and record where it does.
use std::fmt;
use std::marker::Model;

// The rules, each with its number.
#[derive(Clone, Copy, Debug, PartialEq, Eq)]
pub enum Rule {
    Length = 1,
    Count = 2,
    Order = 3,
    Words = 4,
    Place = 5,
    Numeral = 6,
    Key = 7,
    Member = 8,
    Limit = 9,
    Buffer = 10,
}

// The dump as a whole, and its sections in their order.
#[derive(Clone, Copy, Debug, PartialEq, Eq)]
pub enum Site {
    Dump,
    Texts,
    Units,
    Numerals,
    Octets,
    Objects,
    Parts,
    Root,
}

// In a contract a refusal is three numbers.
#[derive(Clone, Copy, Debug, PartialEq, Eq)]
pub struct Refusal {
    pub rule: Rule,
    pub site: Site,
    pub record: u32,
}

impl Model for Refusal {
    ghost use Rattle.dump.specs.Refusals.{Told};

    ghost Value = { Told };

    ghost use Rattle.dump.specs.Tellings.{told, untold, untold_ok};

    ghost view = { told };

    ghost inverse = { untold };

    ghost inverse_ok = { λ a h. untold_ok a };
}

impl Refusal {
    ghost use Rattle.std.specs.Prelude.{◌≡◌, ◌^◌, ◌<◌};
    ghost use Rattle.dump.specs.Refusals.{refused};

    // The record `i` of a section fails the rule.
    pub fn at(rule: Rule, site: Site, i: usize) -> Refusal
        requires { i < 2 ^ 32 }
        ensures { result ≡ refused rule site i }
    {
        Refusal {
            rule,
            site,
            record: i as u32,
        }
    }

    // The number of the rule.
    pub fn number(self) -> u8
        ensures { result ≡ self.number }
    {
        self.rule as u8
    }

    // The number of the section, 0 for the dump as a whole.
    pub fn section(self) -> u8
        ensures { result ≡ self.section }
    {
        self.site as u8
    }
}

// Prints the numbers of the rule, the section and the record. No contract says what is printed.
impl fmt::Display for Refusal {
    fn fmt<W: fmt::Write>(&self, f: &mut fmt::Formatter<W>) -> fmt::Result {
        write!(f, "{} {} {}", self.number(), self.section(), self.record)
    }
}
