// The refusals of evaluation, in the table's order.
ghost use Rattle.std.specs.Prelude.{◌≡◌, ◌&&◌};
ghost use Rattle.std.specs.Float.Ieee.{le};
ghost use Rattle.error.specs.Refusals.{first};
ghost use Rattle.doubles.specs.Numbers.{nought, one};
ghost use Rattle.spline.specs.Evaluation.{spline_uses, spline_segment_uses};

use basis::Basis;
use error::Refusal;

// The refusals of evaluating a curve, in the order of the table.
pub fn curve_verdict(b: Basis, x: f64, knots: &[f64]) -> Result<(), Refusal>
    ensures { result ≡ first (spline_uses b x knots.now) }
{
    checks::curve_length(b, knots.len())?;
    if x != x {
        return Err(Refusal::NotANumber);
    }
    checks::knots(knots)
}

// Whether a parameter lies in 0 to 1; NaN does not.
fn is_inside(x: f64) -> bool
    ensures { result ≡ (le nought x && le x one) }
{
    0.0 <= x && x <= 1.0
}

// The refusals of evaluating one segment, in the order of the table.
pub fn segment_verdict(x: f64, cv: &[f64]) -> Result<(), Refusal>
    ensures { result ≡ first (spline_segment_uses x cv.now) }
{
    checks::segment_length(cv.len())?;
    if !is_inside(x) {
        return Err(Refusal::NotANumber);
    }
    checks::knots(cv)
}
