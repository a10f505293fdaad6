// Texts compared unit by unit.
ghost use Rattle.std.specs.Prelude.{◌≡◌, ◌==◌, not, position};
ghost use Rattle.std.specs.List.{zip};
ghost use Rattle.dump.specs.Texts.{text_units};
ghost use Rattle.numeral.specs.Words.{same_units};
ghost use Rattle.numeral.specs.Order.{before as is_before};

use dump::text::{Text, unit};

// The units of the text are the bytes of `word`. By the lengths first, so that of most texts no unit is looked at: `eq` of iterators would look.
#[tactic(auto, using(crate::proofs::Orders::same_zip))]
pub fn is_word(text: Text<'_>, word: &[u8]) -> bool
    ensures { result ≡ same_units (text_units text.entry) word.now }
{
    text.len() == word.len()
        && text
            .units
            .iter()
            .map(unit)
            .zip(word)
            .all(|(c, byte)| c == u16::from(*byte))
}

// Where the texts first differ. Over slices of one length `zip` tests one end and not two, and `position` counts as an index
// does: six instructions a unit, where `find` over the whole slices takes eight, and `lt` of the iterators sixteen. On its own,
// since the loop is so short that its time depends on where it stands.
#[inline(never)]
fn difference(x: Text<'_>, y: Text<'_>) -> Option<usize>
    ensures { result ≡ position (λ p. not (p.0 == p.1)) (zip (text_units x.entry) (text_units y.entry)) }
{
    let shared = x.len().min(y.len());
    x.units[..shared]
        .iter()
        .map(unit)
        .zip(y.units[..shared].iter().map(unit))
        .position(|(a, b)| a != b)
}

// The text `x` comes before the text `y`: the first units that differ decide, and a beginning comes first.
#[tactic(auto, using(crate::proofs::Orders::before_position))]
pub fn before(x: Text<'_>, y: Text<'_>) -> bool
    ensures { result ≡ is_before (text_units x.entry) (text_units y.entry) }
{
    match difference(x, y) {
        Some(k) => x.unit(k) < y.unit(k),
        None => x.len() < y.len(),
    }
}
