// A curve at many parameters, in one call: the rows of the table once, then every value into a lent slice.
#![tactic(auto)]

ghost use Rattle.std.specs.Prelude.{◌≡◌, length};
ghost use Rattle.many.specs.Many.{many_of, values_of, left_by, told_of};

use basis::Basis;
use error::Refusal;

pub mod refusals;
pub mod values;

// Why nothing is written: a parameter is NaN, and which, the first such, from 0; or another row of the table, with what it tells elsewhere.
#[derive(Clone, Copy)]
pub enum ManyRefusal {
    NotANumberAt(usize),
    Refused(Refusal),
}

// A refusal, with the parameter that it means.
fn told(r: Refusal, xs: &[f64]) -> Result<(), ManyRefusal>
    ensures { result ≡ told_of r xs.now }
{
    if error::number(r) == 5 {
        return Err(ManyRefusal::NotANumberAt(refusals::first_nan(xs)));
    }
    Err(ManyRefusal::Refused(r))
}

// The curve at each of xs, in their order, into the first places of out.
pub fn spline_many(b: Basis, xs: &[f64], knots: &[f64], out: &mut [f64]) -> Result<(), ManyRefusal>
    ensures answer { result ≡ many_of b xs.now knots.now (length out.old) }
    ensures out { out.new ≡ left_by (many_of b xs.now knots.now (length out.old))
        (values_of b xs.now knots.now) out.old }
{
    let v = refusals::verdict(b, xs, knots, out.len());
    match v {
        Err(r) => told(r, xs),
        Ok(()) => {
            values::put_values(b, xs, knots, out);
            Ok(())
        }
    }
}
