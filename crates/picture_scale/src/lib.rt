// Where things stand in the picture, in whole units of its view box.
#![tactic(auto)]

ghost use Rattle.std.specs.Prelude.{◌≡◌, ◌≤◌, ◌<◌, ◌+◌, ◌-◌, min, max, length, leb, ltb, ◌&&◌};
ghost use Rattle.basis.specs.Basis.{most_knots, segments_of};
ghost use Rattle.picture_scale.specs.Scale.{
  height_of,
  curve_height,
  column_of,
  row_of,
  pieces_of,
  shown,
  knot_column,
  widened,
  with_knot,
  curve_extent,
  knots_extent,
  extent_of,
  step_of,
  above_of,
};
ghost use Rattle.picture_scale.specs.Bounds.{lowest, highest, Between, Narrow, Open};

use basis::Basis;

pub mod words;

// The least and the greatest height of what is drawn.
#[derive(Clone, Copy)]
pub struct Extent {
    pub lo: u64,
    pub hi: u64,
}

// The height of a depth: whole thousandths, counted from 2·10^12 below 0, so that none is negative.
pub fn height(x: f64) -> u64
    ensures answer { result ≡ height_of x }
    ensures between { Between result }
{
    let n = text::to_bits(x);
    let a = (n % 9223372036854775808).min(4787326403894837248);
    let u = text_rounded::units(a, 3).min(1099511627776000);
    if 9223372036854775808 <= n {
        return 2000000000000000 - u;
    }
    2000000000000000 + u
}

// The height of the curve at the parameter i/p.
pub fn curve_height(b: Basis, knots: &[f64], p: usize, i: usize) -> u64
    requires parts { p ≤ 4097 }
    requires part { i ≤ 4097 }
    ensures answer { result ≡ curve_height b knots.now p i }
    ensures between { Between result }
{
    let x = doubles::whole::double_of(i) / doubles::whole::double_of(p);
    let e = spline::spline(b, x, knots);
    match e {
        Ok(v) => height(v),
        Err(_) => 2000000000000000,
    }
}

// How far across i of m parts of the frame's breadth lie.
pub fn column(i: u64, m: u64) -> u64
    requires { i ≤ 1000000000000 }
    ensures answer { result ≡ column_of i m }
    ensures most { result ≤ 9600 }
{
    if m == 0 {
        return 1000;
    }
    1000 + (i * 8600 / m).min(8600)
}

// The row of the height h: the lowest height is at 5400, the highest at 400.
pub fn row(e: Extent, h: u64) -> u64
    requires open { Open e }
    requires height { h ≤ highest }
    ensures answer { result ≡ row_of e h }
    ensures most { result ≤ 6400 }
{
    let lo = e.lo;
    let hi = e.hi;
    6400 - (h.saturating_sub(lo) * 6000 / (hi - lo)).min(6000)
}

// How many segments n knots make; one where they are too few.
pub fn segments(b: Basis, n: usize) -> usize
    ensures answer { result ≡ segments_of b n }
    ensures most { result ≤ n + 1 }
{
    if n < 4 {
        return 1;
    }
    basis::segments(b, n)
}

// Into how many pieces the curve is cut.
pub fn pieces(b: Basis, n: usize) -> usize
    requires { n ≤ most_knots }
    ensures answer { result ≡ pieces_of b n }
    ensures most { result ≤ 2048 }
{
    (256 * segments(b, n)).min(2048)
}

// Whether a knot is neither the first nor the last.
fn is_inner(n: usize, j: usize) -> bool
    requires { j < n }
    ensures { result ≡ (leb 1 j && ltb (j + 1) n) }
{
    1 <= j && j + 1 < n
}

// Whether knot j of n is a depth.
pub fn is_shown(b: Basis, n: usize, j: usize) -> bool
    requires { j < n }
    ensures { result ≡ shown b n j }
{
    match b {
        Basis::Bspline => is_inner(n, j),
        Basis::Bezier => true,
        Basis::CatmullRom => is_inner(n, j),
        Basis::Hermite => j % 2 == 0,
        Basis::Linear => is_inner(n, j),
        Basis::Power => j % 4 == 3,
    }
}

// How far across knot j of n stands.
pub fn knot_column(b: Basis, n: u64, j: u64) -> u64
    requires { j ≤ 65535 }
    ensures answer { result ≡ knot_column b n j }
    ensures most { result ≤ 9600 }
{
    match b {
        Basis::Bspline => column(j.saturating_sub(1), n.saturating_sub(3)),
        Basis::Bezier => column(j, n.saturating_sub(1)),
        Basis::CatmullRom => column(j.saturating_sub(1), n.saturating_sub(3)),
        Basis::Hermite => column(j / 2, (n / 2).saturating_sub(1)),
        Basis::Linear => column(j.saturating_sub(1), n.saturating_sub(3)),
        Basis::Power => column(j / 4, n / 4),
    }
}

// The extent with one more height in it.
fn widen(e: Extent, h: u64) -> Extent
    requires narrow { Narrow e }
    requires between { Between h }
    ensures answer { result ≡ widened e h }
    ensures narrow_after { Narrow result }
{
    Extent {
        lo: e.lo.min(h),
        hi: e.hi.max(h),
    }
}

// The extent of the curve at the parameters 0/p to p/p.
fn curve_extent(b: Basis, knots: &[f64], p: usize) -> Extent
    requires { p ≤ 4097 }
    ensures answer { result ≡ curve_extent b knots.now p p }
    ensures narrow_after { Narrow result }
{
    let h = curve_height(b, knots, p, 0);
    let mut e = Extent { lo: h, hi: h };
    for i in 0..p {
        e = widen(e, curve_height(b, knots, p, i + 1));
    }
    e
}

// The extent e, with knot j of n if it is shown.
fn with_knot(b: Basis, n: usize, j: usize, x: f64, e: Extent) -> Extent
    requires knot { j < n }
    requires narrow { Narrow e }
    ensures answer { result ≡ with_knot b n j x e }
    ensures narrow_after { Narrow result }
{
    if is_shown(b, n, j) {
        return widen(e, height(x));
    }
    e
}

// The extent of the curve, with all knots that are shown.
fn knots_extent(b: Basis, knots: &[f64], first: Extent) -> Extent
    requires { Narrow first }
    ensures answer { result ≡ knots_extent b knots.now first (length knots.now) }
    ensures narrow_after { Narrow result }
{
    let mut e = first;
    for (j, x) in knots.iter().enumerate() {
        e = with_knot(b, knots.len(), j, *x, e);
    }
    e
}

// The extent of all that is shown, and a thousandth more on either side.
pub fn extent_of(b: Basis, knots: &[f64]) -> Extent
    requires { length knots.now ≤ most_knots }
    ensures answer { result ≡ extent_of b knots.now }
    ensures open_after { Open result }
{
    let p = pieces(b, knots.len());
    let c = curve_extent(b, knots, p);
    let e = knots_extent(b, knots, c);
    Extent {
        lo: e.lo - 1,
        hi: e.hi + 1,
    }
}

// The step from label to label, for a stretch r: 1, 2 or 5 times a power of ten.
pub fn step(k: usize, r: u64) -> u64
    ensures answer { result ≡ step_of k r }
    ensures positive { 0 < result }
    ensures divides { 0 < r → result ≤ r }
    ensures most { result ≤ r + 1 }
{
    if k == 0 {
        return 1;
    }
    if r <= 5 {
        return 1;
    }
    if r <= 10 {
        return 2;
    }
    if r <= 25 {
        return 5;
    }
    10 * step(k - 1, r / 10)
}

// The first multiple of the step above l.
pub fn multiple_above(l: u64, s: u64) -> u64
    requires some { 0 < s }
    requires lowest { l ≤ highest }
    requires stride { s ≤ highest }
    ensures answer { result ≡ above_of l s }
    ensures most { result ≤ l + s }
{
    l + (s - l % s)
}
