// The values, once nothing is refused: first every parameter, clamped and scaled, into its place of the output; then its value there. The
// steps are those of `spline::curve` once more, so that no single call shares code with these loops, and none is slower for them.
ghost use Rattle.std.specs.Prelude.{◌≡◌, ◌<◌, ◌≤◌, false, map, length, Ok};
ghost use Rattle.basis.specs.Basis.{most_knots, segments_of};
ghost use Rattle.doubles.specs.Whole.{double};
ghost use Rattle.spline.specs.Curve.{scaled};
ghost use Rattle.many.specs.Many.{some_nan, values_of, left_by};
ghost use Rattle.many.specs.Contract.{laid, IsSpotOf, InScale, AllInScale, value_at};

use basis::Basis;
use basis::basis_macros::{Bezier, Bspline, CatmullRom, Hermite, Known, Linear, Power};
use doubles::whole::{UNITS, UNITS_PATTERN};
use spline::curve::Spot;

// A guess at the whole part of p, as `doubles::whole::guess` makes it, without its tests: a scaled parameter does not need them, and is
// guessed faster so. Nothing rests on it: `spot` tests it by comparing.
fn guess(k: usize, p: f64) -> u64
    requires segments { k ≤ most_knots }
    requires scale { InScale k p }
{
    let g = (p - 0.4999999) + UNITS;
    std::num::wrapping_sub_u64(f64::to_bits(g), UNITS_PATTERN)
}

// Where the guess was none: as in `spline::curve`.
fn far_spot(k: usize, p: f64) -> Spot
    requires some { 0 < k }
    requires segments { k ≤ most_knots }
    ensures { IsSpotOf k p result.s result.t }
{
    let s = doubles::whole::whole_up_to(k - 1, p);
    let t = p - doubles::whole::double_of(s);
    Spot { s: s, t: t }
}

fn spot(k: usize, p: f64) -> Spot
    requires some { 0 < k }
    requires segments { k ≤ most_knots }
    requires scale { InScale k p }
    ensures { IsSpotOf k p result.s result.t }
{
    let w = guess(k, p);
    if w < k as u64 {
        let n = w as usize;
        let d = doubles::whole::double_of(n);
        if d <= p {
            if p < doubles::whole::double_of(n + 1) {
                return Spot { s: n, t: p - d };
            }
        }
    }
    far_spot(k, p)
}

// Every parameter, clamped and scaled. By index, here and below: `out.iter_mut().zip(xs)` was tried, and the proof did not close, since
// nothing is known of the places after such a loop.
fn put_scaled(k: usize, xs: &[f64], out: &mut [f64])
    requires segments { k ≤ most_knots }
    requires room { length xs.now ≤ length out.old }
    ensures { out.new ≡ laid (length xs.now) (map (scaled k) xs.now) out.old }
{
    let wide = doubles::whole::double_of(k);
    for i in 0..xs.len() {
        out[i] = doubles::clamped(xs[i]) * wide;
    }
}

// The values of the first m places on a curve of basis B: a loop for each, in which its matrix and its step are constants.
fn put_in_place<B: Known>(k: usize, m: usize, knots: &[f64], out: &mut [f64])
    requires segments { k ≡ segments_of B.basis (length knots.now) }
    requires enough { 4 ≤ length knots.now }
    requires most { length knots.now ≤ most_knots }
    requires room { m ≤ length out.old }
    requires scale { AllInScale k m out.old }
    ensures { out.new ≡ laid m (map (value_at B.basis knots.now) out.old) out.old }
{
    let terms = B::terms();
    for i in 0..m {
        let z = spot(k, out[i]);
        let s = z.s;
        let start = s * terms.step;
        let w = spline::segment::sums(terms.matrix, &knots[start..]);
        out[i] = spline::segment::horner(w, z.t);
    }
}

// A match here and not `by_basis`: tried, and the proof did not close, since nothing is known of the lent places after a closure took them.
pub fn put_values(b: Basis, xs: &[f64], knots: &[f64], out: &mut [f64])
    requires enough { 4 ≤ length knots.now }
    requires most { length knots.now ≤ most_knots }
    requires numbers { some_nan xs.now ≡ false }
    requires room { length xs.now ≤ length out.old }
    ensures { out.new ≡ left_by (Ok tt) (values_of b xs.now knots.now) out.old }
{
    let k = basis::segments(b, knots.len());
    put_scaled(k, xs, &mut *out);
    let m = xs.len();
    match b {
        Basis::Bspline => put_in_place::<Bspline>(k, m, knots, out),
        Basis::Bezier => put_in_place::<Bezier>(k, m, knots, out),
        Basis::CatmullRom => put_in_place::<CatmullRom>(k, m, knots, out),
        Basis::Hermite => put_in_place::<Hermite>(k, m, knots, out),
        Basis::Linear => put_in_place::<Linear>(k, m, knots, out),
        Basis::Power => put_in_place::<Power>(k, m, knots, out),
    }
}
