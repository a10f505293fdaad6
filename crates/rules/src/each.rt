// Going over rows by their numbers.
ghost use Rattle.std.specs.Prelude.{ℕ, ◌<◌};
ghost use Rattle.rules.specs.Judging.{Judged};

use dump::refusal::Refusal;

// Judges the rows below `n` in turn, up to the first that is refused.
pub(crate) fn each<F: Fn(usize) -> Result<(), Refusal>>(n: usize, judge: F) -> Result<(), Refusal>
    requires { (i : ℕ) → i < n → F.pre judge i }
    ensures { Judged (F.post judge) n result }
{
    for i in 0..n {
        judge(i)?;
    }
    Ok(())
}
