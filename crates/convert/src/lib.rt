// Conversion of one segment and of a knot vector from basis to basis, into a lent buffer. Rust: src/convert.rs.
#![tactic(auto)]

ghost use Rattle.std.specs.Prelude.{◌≡◌, length};
ghost use Rattle.convert.specs.Conversion.{converted_of, converted_segment_of};
ghost use Rattle.convert.specs.Buffer.{answer_of, buffer_of};

use basis::Basis;
use error::Refusal;

pub mod output;
pub mod refusals;

// One segment: four doubles are written.
pub fn convert_segment(
    from: Basis,
    to: Basis,
    cv: &[f64],
    out: &mut [f64],
) -> Result<usize, Refusal>
    ensures answer { result ≡ answer_of (converted_segment_of from to cv.now (length out.old)) }
    ensures out { out.new ≡ buffer_of (converted_segment_of from to cv.now (length out.old)) out.old }
{
    refusals::segment_verdict(to, cv, out.len())?;
    let m = convert_matrix::conversion_matrix(from, to);
    output::put_last(out, 0, spline::segment::sums(m, cv), 4);
    Ok(4)
}

// A curve of k segments: 4 + (k - 1) * STEP doubles are written, by the STEP of the output's basis.
pub fn convert_spline(
    from: Basis,
    to: Basis,
    knots: &[f64],
    out: &mut [f64],
) -> Result<usize, Refusal>
    ensures answer { result ≡ answer_of (converted_of from to knots.now (length out.old)) }
    ensures out { out.new ≡ buffer_of (converted_of from to knots.now (length out.old)) out.old }
{
    refusals::spline_verdict(from, to, knots, out.len())?;
    let m = convert_matrix::conversion_matrix(from, to);
    Ok(output::put_windows(m, basis::step(from), knots, basis::step(to), out))
}
