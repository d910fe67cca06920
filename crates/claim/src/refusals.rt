// The refusals of a claim, in the table's order.
ghost use Rattle.std.specs.Prelude.{◌≡◌};
ghost use Rattle.error.specs.Refusals.{first};
ghost use Rattle.claim.specs.Claim.{claim_uses};

use basis::Basis;
use error::Refusal;

// The refusals of a claim, in the order of the table.
pub fn verdict(
    b: Basis,
    y: f64,
    s: usize,
    x: f64,
    precision: f64,
    knots: &[f64],
) -> Result<(), Refusal>
    ensures { result ≡ first (claim_uses b y s x precision knots.now) }
{
    checks::curve_length(b, knots.len())?;
    if y != y {
        return Err(Refusal::NotANumber);
    }
    if x != x {
        return Err(Refusal::NotANumber);
    }
    if !checks::is_precise(precision) {
        return Err(Refusal::BadPrecision);
    }
    if basis::segments(b, knots.len()) <= s {
        return Err(Refusal::NoSegment);
    }
    checks::knots(knots)
}
