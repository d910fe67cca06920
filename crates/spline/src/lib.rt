// Evaluation of a curve and of one segment. Rust: `spline` and `spline_segment` of src/spline_trait.rs.
#![tactic(auto)]

ghost use Rattle.std.specs.Prelude.{◌≡◌};
ghost use Rattle.spline.specs.Evaluation.{spline_of, spline_segment_of};

use basis::Basis;
use error::Refusal;

pub mod curve;
pub mod refusals;
pub mod segment;

// The four row sums of a segment: the coefficients of its cubic, that of the third power first.
#[derive(Clone, Copy)]
pub struct RowSums {
    pub w0: f64,
    pub w1: f64,
    pub w2: f64,
    pub w3: f64,
}

// The curve at x; x is clamped to 0..1.
pub fn spline(b: Basis, x: f64, knots: &[f64]) -> Result<f64, Refusal>
    ensures { result ≡ spline_of b x knots.now }
{
    refusals::curve_verdict(b, x, knots)?;
    Ok(curve::curve_value(b, x, knots))
}

// One segment at x.
pub fn spline_segment(b: Basis, x: f64, cv: &[f64]) -> Result<f64, Refusal>
    ensures { result ≡ spline_segment_of b x cv.now }
{
    refusals::segment_verdict(x, cv)?;
    Ok(segment::segment_value(b, cv, x))
}
