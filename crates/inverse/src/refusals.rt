// The refusals of a curve's inversion, in the table's order.
ghost use Rattle.std.specs.Prelude.{◌≡◌};
ghost use Rattle.error.specs.Refusals.{first};
ghost use Rattle.inverse.specs.Inverse.{inverse_uses};

use basis::Basis;
use error::Refusal;

// The refusals of an inversion, in the order of the table.
pub fn verdict(
    b: Basis,
    y: f64,
    knots: &[f64],
    check: bool,
    limit: u16,
    precision: f64,
) -> Result<(), Refusal>
    ensures { result ≡ first (inverse_uses b y knots.now check limit precision) }
{
    checks::curve_length(b, knots.len())?;
    checks::asked(y, limit, precision)?;
    inverse_order::knots_verdict(knots, check)
}
