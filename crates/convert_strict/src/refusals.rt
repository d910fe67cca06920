// The refusals of a strict conversion but for that of the seams, in the table's order.
ghost use Rattle.std.specs.Prelude.{◌≡◌, [], ◌∷◌, ◌++◌, ◌≤◌, length};
ghost use Rattle.basis.specs.Basis.{most_knots};
ghost use Rattle.error.specs.Refusals.{first};
ghost use Rattle.convert.specs.Output.{output_length};
ghost use Rattle.convert.specs.Conversion.{output_uses};
ghost use Rattle.convert_strict.specs.Strict.{allowable, bad_allowance, allowed_uses};

use basis::Basis;
use error::Refusal;

// An allowance is zero or more, and finite.
pub fn is_allowance(x: f64) -> bool
    ensures { result ≡ allowable x }
{
    0.0 <= x && x < 1.0 / 0.0
}

// The rows after those of the lengths: that of the allowance comes between that of the output's basis and that of its room.
fn later_verdict(
    from: Basis,
    to: Basis,
    knots: &[f64],
    allowance: f64,
    room: usize,
) -> Result<(), Refusal>
    requires enough { 4 ≤ length knots.now }
    requires most { length knots.now ≤ most_knots }
    ensures { result ≡ first
        (output_uses to knots.now (output_length from to (length knots.now)) room ++ (bad_allowance allowance ∷ [])) }
{
    if basis::is_linear(to) {
        return Err(Refusal::LinearOutput);
    }
    if !is_allowance(allowance) {
        return Err(Refusal::BadAllowance);
    }
    let need = convert::refusals::output_length(from, to, knots.len());
    convert::refusals::output_verdict(to, knots, need, room)
}

// Every row but that of the seams.
pub fn allowed_verdict(
    from: Basis,
    to: Basis,
    knots: &[f64],
    allowance: f64,
    room: usize,
) -> Result<(), Refusal>
    ensures { result ≡ first (allowed_uses from to knots.now allowance room) }
{
    checks::curve_length(from, knots.len())?;
    later_verdict(from, to, knots, allowance, room)
}
