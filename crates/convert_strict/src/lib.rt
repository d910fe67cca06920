// Strict conversion, of a knot vector where no seam loses more than an allowance.
#![tactic(auto)]

ghost use Rattle.std.specs.Prelude.{◌≡◌, length};
ghost use Rattle.convert.specs.Buffer.{answer_of, buffer_of};
ghost use Rattle.convert_strict.specs.Strict.{strict_of};

use basis::Basis;
use error::Refusal;

pub mod refusals;
pub mod seams;

// The seams are looked at last, with the matrix that then writes; nothing is written before.
pub fn convert_spline_strict(
    from: Basis,
    to: Basis,
    knots: &[f64],
    allowance: f64,
    out: &mut [f64],
) -> Result<usize, Refusal>
    ensures answer { result ≡ answer_of (strict_of from to knots.now allowance (length out.old)) }
    ensures buffer { out.new ≡ buffer_of (strict_of from to knots.now allowance (length out.old))
        out.old }
{
    refusals::allowed_verdict(from, to, knots, allowance, out.len())?;
    let m = convert_matrix::conversion_matrix(from, to);
    let step = basis::step(from);
    let stride = basis::step(to);
    if let Some(s) = seams::lost_seam(m, step, knots, stride, allowance) {
        return Err(Refusal::LostSeam(s as u16));
    }
    Ok(convert::output::put_windows(m, step, knots, stride, out))
}
