// The check of a claim, that a curve's segment comes near a target at a local place.
#![tactic(auto)]

ghost use Rattle.std.specs.Prelude.{◌≡◌, ◌+◌, ◌*◌, ◌≤◌, length};
ghost use Rattle.basis.specs.Basis.{most_knots, step_of};
ghost use Rattle.spline.specs.Segment.{segment_of};
ghost use Rattle.claim.specs.Claim.{accepts, claim_of};

use basis::Basis;
use error::Refusal;

pub mod refusals;

// The segment is evaluated only where the place lies in 0 to 1.
fn is_accepted(b: Basis, y: f64, s: usize, x: f64, precision: f64, knots: &[f64]) -> bool
    requires inside { s * step_of b + 4 ≤ length knots.now }
    requires most { length knots.now ≤ most_knots }
    ensures { result ≡ accepts y x (segment_of b knots.now s x) precision }
{
    if 0.0 <= x {
        if x <= 1.0 {
            let start = s * basis::step(b);
            let v = spline::segment::segment_value(b, &knots[start..], x);
            return inverse_segment::is_near(y, v, precision);
        }
        return false;
    }
    false
}

// Whether segment s of the curve, at the local place x, is within twice the precision of y.
pub fn check_claim(
    b: Basis,
    y: f64,
    s: usize,
    x: f64,
    precision: f64,
    knots: &[f64],
) -> Result<bool, Refusal>
    ensures { result ≡ claim_of b y s x precision knots.now }
{
    refusals::verdict(b, y, s, x, precision, knots)?;
    Ok(is_accepted(b, y, s, x, precision, knots))
}
