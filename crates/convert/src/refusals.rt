// The refusals of conversion, in the table's order, all decided before the first write.
ghost use Rattle.std.specs.Prelude.{◌≡◌, ◌≤◌, length};
ghost use Rattle.basis.specs.Basis.{most_knots};
ghost use Rattle.error.specs.Refusals.{first};
ghost use Rattle.convert.specs.Output.{output_length};
ghost use Rattle.convert.specs.Conversion.{output_uses, convert_segment_uses, convert_uses};

use basis::Basis;
use error::Refusal;

// Refusals 8 and 9, then 4, of an output that needs so many places where so many are lent.
pub fn output_verdict(to: Basis, knots: &[f64], need: usize, room: usize) -> Result<(), Refusal>
    requires { length knots.now ≤ most_knots }
    ensures { result ≡ first (output_uses to knots.now need room) }
{
    if basis::is_linear(to) {
        return Err(Refusal::LinearOutput);
    }
    if room < need {
        return Err(Refusal::ShortBuffer);
    }
    checks::knots(knots)
}

// The refusals of converting one segment, in the order of the table.
pub fn segment_verdict(to: Basis, cv: &[f64], room: usize) -> Result<(), Refusal>
    ensures { result ≡ first (convert_segment_uses to cv.now room) }
{
    checks::segment_length(cv.len())?;
    output_verdict(to, cv, 4, room)
}

// The places that n knots fill once they are converted.
pub fn output_length(from: Basis, to: Basis, n: usize) -> usize
    requires enough { 4 ≤ n }
    requires most { n ≤ most_knots }
    ensures { result ≡ output_length from to n }
{
    4 + (n - 4) / basis::step(from) * basis::step(to)
}

// The refusals of converting a curve, in the order of the table.
pub fn spline_verdict(from: Basis, to: Basis, knots: &[f64], room: usize) -> Result<(), Refusal>
    ensures { result ≡ first (convert_uses from to knots.now room) }
{
    let n = knots.len();
    checks::curve_length(from, n)?;
    output_verdict(to, knots, output_length(from, to, n), room)
}
