// A curve's value, once nothing is refused: the segment and local place of the parameter, then that segment's value.
ghost use Rattle.std.specs.Prelude.{◌≡◌, ◌≤◌, ◌<◌, length};
ghost use Rattle.basis.specs.Basis.{most_knots};
ghost use Rattle.spline.specs.Curve.{curve_value};
ghost use Rattle.spline.specs.Contract.{IsSpot};

use basis::Basis;

// A segment, and the local place in it.
#[derive(Clone, Copy)]
pub struct Spot {
    pub s: usize,
    pub t: f64,
}

// Where a parameter lies on a curve of k segments. The guess at the whole part is tested here too: where it is right, its double is at hand
// and serves both tests and the local place.
fn place(k: usize, x: f64) -> Spot
    requires some { 0 < k }
    requires segments { k ≤ most_knots }
    ensures { IsSpot k x result.s result.t }
{
    let p = doubles::clamped(x) * doubles::whole::double_of(k);
    let n = doubles::whole::guess(p);
    if n < k {
        let d = doubles::whole::double_of(n);
        if d <= p {
            if p < doubles::whole::double_of(n + 1) {
                return Spot { s: n, t: p - d };
            }
        }
    }
    let s = doubles::whole::whole_up_to(k - 1, p);
    let t = p - doubles::whole::double_of(s);
    Spot { s: s, t: t }
}

// The segment is the part of the knots that starts at its place: nothing is copied.
pub fn curve_value(b: Basis, x: f64, knots: &[f64]) -> f64
    requires enough { 4 ≤ length knots.now }
    requires most { length knots.now ≤ most_knots }
    ensures { result ≡ curve_value b x knots.now }
{
    let k = basis::segments(b, knots.len());
    let z = place(k, x);
    let s = z.s;
    let start = s * basis::step(b);
    crate::segment::segment_value(b, &knots[start..], z.t)
}
