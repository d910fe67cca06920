// The refusals of many parameters, in the table's order, all decided before the first write.
ghost use Rattle.std.specs.Prelude.{◌≡◌};
ghost use Rattle.error.specs.Refusals.{first};
ghost use Rattle.many.specs.Many.{some_nan, first_nan, many_uses};

use basis::Basis;
use error::Refusal;

// No early exit: a flag is several times quicker on good parameters.
fn some_nan(xs: &[f64]) -> bool
    ensures { result ≡ some_nan xs.now }
{
    let mut found = false;
    for x in xs {
        found |= x.is_nan();
    }
    found
}

// Which one; looked for only where one is. No Option: whoever asks has the verdict that there is one.
pub fn first_nan(xs: &[f64]) -> usize
    ensures { result ≡ first_nan xs.now }
{
    xs.iter().position(|x| x.is_nan()).unwrap_or(xs.len())
}

pub fn verdict(b: Basis, xs: &[f64], knots: &[f64], room: usize) -> Result<(), Refusal>
    ensures { result ≡ first (many_uses b xs.now knots.now room) }
{
    checks::curve_length(b, knots.len())?;
    if some_nan(xs) {
        return Err(Refusal::NotANumber);
    }
    if room < xs.len() {
        return Err(Refusal::ShortBuffer);
    }
    checks::knots(knots)
}
