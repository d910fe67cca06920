// Whether a curve over whole knots turns back: decided exactly, in whole numbers. No floating point.
#![tactic(auto)]

ghost use Rattle.std.specs.Prelude.{◌≡◌, [], ◌∷◌, ◌+◌, ◌-◌, ◌*◌, ◌≤◌, ◌<◌, leb, nat_abs, length, drop};
ghost use Rattle.std.proofs.Math.IntN.{sub_ℕ};
ghost use Rattle.error.specs.Refusals.{first};
ghost use Rattle.error.specs.Found.{Found};
ghost use Rattle.basis.specs.declared.Basis.TheVariants.{Power};
ghost use Rattle.basis.specs.Basis.{most_knots, step_of, segments_of};
ghost use Rattle.whole.specs.Held.{held_all, turned, turned_all, Small};
ghost use Rattle.turns_back.specs.Curve.{never_falls, starts_no_lower, segment_never_falls, first_fall};
ghost use Rattle.turns_back.specs.Product.{Wide};
ghost use Rattle.turns_back.specs.Call.{most, turning_uses, turning_of, start_of, end_of, way_of, by_ends, turns_back_by_of, turns_back_of};
ghost use Rattle.turns_back.specs.Four.{four_never_fall, four_at, FourFrom};

use basis::Basis;
use error::Refusal;

#[derive(Clone, Copy)]
pub enum Turning {
    Flat,
    Never,
    At(u16),
}

// From the curve's start to its end.
#[derive(Clone, Copy)]
pub enum Way {
    Rising,
    Falling,
    Level,
}

// A product in two parts, the higher in 2^48s: it decides an order.
#[derive(Clone, Copy, PartialEq, Eq, PartialOrd, Ord)]
struct Parts {
    top: u64,
    rest: u64,
}

// Each factor is taken apart into 24 bits and the bits above them.
fn product(x: u64, y: u64) -> Parts
    requires x { x < 140737488355328 }
    requires y { y < 140737488355328 }
    ensures { Wide x y result.top result.rest }
{
    let xh = x / 16777216;
    let xl = x % 16777216;
    let yh = y / 16777216;
    let yl = y % 16777216;
    let low = xl * yl;
    let mid = xh * yl + xl * yh + low / 16777216;
    let top = xh * yh + mid / 16777216;
    let rest = mid % 16777216 * 16777216 + low % 16777216;
    Parts { top, rest }
}

// Whether b² is at most a × c.
fn is_square_within(b: u64, a: u64, c: u64) -> bool
    requires b { b < 140737488355328 }
    requires a { a < 140737488355328 }
    requires c { c < 140737488355328 }
    ensures { result ≡ leb (b * b) (a * c) }
{
    product(b, b) <= product(a, c)
}

// The three slopes p0 − n0, p1 − n1 and p2 − n2: whether the quadratic that they make is never negative.
fn is_never_negative(p0: u64, n0: u64, p1: u64, n1: u64, p2: u64, n2: u64) -> bool
    requires first { p0 < 140737488355328 }
    requires middle { n1 < 140737488355328 }
    requires last { p2 < 140737488355328 }
    ensures { result ≡ never_falls (sub_ℕ p0 n0) (sub_ℕ p1 n1) (sub_ℕ p2 n2) }
{
    if p0 < n0 {
        return false;
    }
    if p2 < n2 {
        return false;
    }
    if n1 <= p1 {
        return true;
    }
    is_square_within(n1 - p1, p0 - n0, p2 - n2)
}

// One segment over four knots, each raised by 10^12.
fn is_never_falling(b: Basis, k0: u64, k1: u64, k2: u64, k3: u64) -> bool
    requires k0 { k0 ≤ 2000000000000 }
    requires k1 { k1 ≤ 2000000000000 }
    requires k2 { k2 ≤ 2000000000000 }
    requires k3 { k3 ≤ 2000000000000 }
    ensures { result ≡ four_never_fall b (sub_ℕ k0 most ∷ sub_ℕ k1 most ∷ sub_ℕ k2 most ∷ sub_ℕ k3 most ∷ []) }
{
    match b {
        Basis::Bspline => is_never_negative(3 * k2, 3 * k0, 6 * k2, 6 * k1, 3 * k3, 3 * k1),
        Basis::Bezier => is_never_negative(3 * k1, 3 * k0, 3 * k2, 3 * k1, 3 * k3, 3 * k2),
        Basis::CatmullRom => is_never_negative(k2, k0, k0 + 5 * k2, 5 * k1 + k3, k3, k1),
        Basis::Hermite => is_never_negative(
            k1,
            1000000000000,
            3 * k2 + 2000000000000,
            3 * k0 + k1 + k3,
            k3,
            1000000000000,
        ),
        Basis::Linear => is_never_negative(k2, k1, k2, k1, k2, k1),
        Basis::Power => is_never_negative(
            k2,
            1000000000000,
            k1 + k2,
            2000000000000,
            3 * k0 + 2 * k1 + k2,
            6000000000000,
        ),
    }
}

// A knot raised by 10^12, so that it is not negative; of a falling table, its negative.
fn raised(up: bool, k: i64) -> u64
    requires { nat_abs k ≤ most }
    ensures is { sub_ℕ result most ≡ turned up k }
    ensures most { result ≤ 2000000000000 }
{
    whole::raised(1000000000000, up, k)
}

// Whether a segment starts no lower than the one before it ends. All but those of Power start where that one ends.
pub fn is_start_no_lower(b: Basis, up: bool, knots: &[i64], s: usize) -> bool
    requires inside { s * step_of b + 4 ≤ length knots.now }
    requires few { length knots.now ≤ most_knots }
    requires small { Small most (held_all knots.now) }
    ensures { result ≡ starts_no_lower b (turned_all up (held_all knots.now)) s }
{
    match b {
        Basis::Power => is_power_start_no_lower(up, knots, s),
        _ => true,
    }
}

// Whether a segment of Power starts no lower than the one before it ends.
fn is_power_start_no_lower(up: bool, knots: &[i64], s: usize) -> bool
    requires inside { s * 4 + 4 ≤ length knots.now }
    requires few { length knots.now ≤ most_knots }
    requires small { Small most (held_all knots.now) }
    ensures { result ≡ starts_no_lower Power (turned_all up (held_all knots.now)) s }
{
    if s == 0 {
        return true;
    }
    let at = 4 * s;
    let a = raised(up, knots[at - 4]);
    let b = raised(up, knots[at - 3]);
    let c = raised(up, knots[at - 2]);
    let d = raised(up, knots[at - 1]);
    let e = raised(up, knots[at + 3]);
    a + b + c + d <= e + 3000000000000
}

// Four knots, each raised by 10^12.
#[derive(Clone, Copy)]
struct Four {
    k0: u64,
    k1: u64,
    k2: u64,
    k3: u64,
}

// Four knots, turned over if the curve is to fall.
fn four_from(up: bool, knots: &[i64], at: usize) -> Four
    requires inside { at + 4 ≤ length knots.now }
    requires few { length knots.now ≤ most_knots }
    requires small { Small most (held_all knots.now) }
    ensures { FourFrom up (held_all knots.now) at result.k0 result.k1 result.k2 result.k3 }
{
    let k0 = raised(up, knots[at]);
    let k1 = raised(up, knots[at + 1]);
    let k2 = raised(up, knots[at + 2]);
    let k3 = raised(up, knots[at + 3]);
    Four { k0, k1, k2, k3 }
}

// One segment of a curve, whose knots start at a place.
pub fn is_never_falling_at(b: Basis, up: bool, knots: &[i64], at: usize) -> bool
    requires inside { at + 4 ≤ length knots.now }
    requires few { length knots.now ≤ most_knots }
    requires small { Small most (held_all knots.now) }
    ensures { result ≡ four_never_fall b (drop at (turned_all up (held_all knots.now))) }
{
    let f = four_from(up, knots, at);
    is_never_falling(b, f.k0, f.k1, f.k2, f.k3)
}

// Whether a segment never falls, and starts no lower than the one before it ends.
fn is_segment_never_falling(b: Basis, up: bool, knots: &[i64], s: usize) -> bool
    requires inside { s * step_of b + 4 ≤ length knots.now }
    requires few { length knots.now ≤ most_knots }
    requires small { Small most (held_all knots.now) }
    ensures { result ≡ segment_never_falls b (turned_all up (held_all knots.now)) s }
{
    if !is_start_no_lower(b, up, knots, s) {
        return false;
    }
    is_never_falling_at(b, up, knots, s * basis::step(b))
}

// The first segment that falls, if one does.
fn first_fall(b: Basis, up: bool, knots: &[i64]) -> Option<usize>
    requires enough { 4 ≤ length knots.now }
    requires few { length knots.now ≤ most_knots }
    requires small { Small most (held_all knots.now) }
    ensures { Found (segments_of b (length knots.now)) (first_fall b (turned_all up (held_all knots.now))) result }
{
    let n = basis::segments(b, knots.len());
    for s in 0..n {
        if !is_segment_never_falling(b, up, knots, s) {
            return Some(s);
        }
    }
    None
}

// Refusals 1, 2, 3 and 4.
fn verdict(b: Basis, knots: &[i64]) -> Result<(), Refusal>
    ensures { result ≡ first (turning_uses b (held_all knots.now)) }
{
    checks::curve_length(b, knots.len())?;
    if let Some(i) = whole::first_large(1000000000000, knots) {
        return Err(Refusal::BadKnot(i as u16));
    }
    Ok(())
}

// Where it turns back: the first segment that falls, or, where `up` is not said, that rises.
fn in_direction(b: Basis, up: bool, knots: &[i64]) -> Turning
    requires enough { 4 ≤ length knots.now }
    requires few { length knots.now ≤ most_knots }
    requires small { Small most (held_all knots.now) }
    ensures { result ≡ turning_of b up (held_all knots.now) }
{
    match first_fall(b, up, knots) {
        Some(s) => Turning::At(s as u16),
        None => Turning::Never,
    }
}

// Whether the curve goes against a direction: rising, whether it falls anywhere; else, whether it rises.
pub fn turns_back_by(b: Basis, up: bool, knots: &[i64]) -> Result<Turning, Refusal>
    ensures { result ≡ turns_back_by_of b up (held_all knots.now) }
{
    verdict(b, knots)?;
    Ok(in_direction(b, up, knots))
}

// The start of a segment over four knots, each raised by 10^12: times the basis's divisor, and raised by 6 × 10^12.
fn start(b: Basis, k0: u64, k1: u64, k2: u64, k3: u64) -> u64
    requires k0 { k0 ≤ 2000000000000 }
    requires k1 { k1 ≤ 2000000000000 }
    requires k2 { k2 ≤ 2000000000000 }
    requires k3 { k3 ≤ 2000000000000 }
    ensures { sub_ℕ result 6000000000000 ≡ four_at b (sub_ℕ k0 most ∷ sub_ℕ k1 most ∷ sub_ℕ k2 most ∷ sub_ℕ k3 most ∷ []) 1 0 }
{
    match b {
        Basis::Bspline => k0 + 4 * k1 + k2,
        Basis::Bezier => k0 + 5000000000000,
        Basis::CatmullRom => 2 * k1 + 4000000000000,
        Basis::Hermite => k0 + 5000000000000,
        Basis::Linear => k1 + 5000000000000,
        Basis::Power => k3 + 5000000000000,
    }
}

// Its end, in the same way.
fn end(b: Basis, k0: u64, k1: u64, k2: u64, k3: u64) -> u64
    requires k0 { k0 ≤ 2000000000000 }
    requires k1 { k1 ≤ 2000000000000 }
    requires k2 { k2 ≤ 2000000000000 }
    requires k3 { k3 ≤ 2000000000000 }
    ensures { sub_ℕ result 6000000000000 ≡ four_at b (sub_ℕ k0 most ∷ sub_ℕ k1 most ∷ sub_ℕ k2 most ∷ sub_ℕ k3 most ∷ []) 1 1 }
{
    match b {
        Basis::Bspline => k1 + 4 * k2 + k3,
        Basis::Bezier => k3 + 5000000000000,
        Basis::CatmullRom => 2 * k2 + 4000000000000,
        Basis::Hermite => k2 + 5000000000000,
        Basis::Linear => k2 + 5000000000000,
        Basis::Power => k0 + k1 + k2 + k3 + 2000000000000,
    }
}

// Where the last segment's knots begin.
fn last(b: Basis, n: usize) -> usize
    requires enough { 4 ≤ n }
    requires few { n ≤ most_knots }
    ensures is { result ≡ (segments_of b n - 1) * step_of b }
    ensures within { result + 4 ≤ n }
{
    (basis::segments(b, n) - 1) * basis::step(b)
}

// Whether the curve rises or falls from its start to its end, exactly.
pub fn way_taken(b: Basis, knots: &[i64]) -> Way
    requires enough { 4 ≤ length knots.now }
    requires few { length knots.now ≤ most_knots }
    requires small { Small most (held_all knots.now) }
    ensures { result ≡ way_of (start_of b (held_all knots.now)) (end_of b (held_all knots.now)) }
{
    let f = four_from(true, knots, 0);
    let l = four_from(true, knots, last(b, knots.len()));
    let s = start(b, f.k0, f.k1, f.k2, f.k3);
    let e = end(b, l.k0, l.k1, l.k2, l.k3);
    if s < e {
        return Way::Rising;
    }
    if e < s {
        return Way::Falling;
    }
    Way::Level
}

// By that direction.
fn by_ends(b: Basis, knots: &[i64]) -> Turning
    requires enough { 4 ≤ length knots.now }
    requires few { length knots.now ≤ most_knots }
    requires small { Small most (held_all knots.now) }
    ensures { result ≡ by_ends (start_of b (held_all knots.now)) (end_of b (held_all knots.now)) b
        (held_all knots.now) }
{
    match way_taken(b, knots) {
        Way::Rising => in_direction(b, true, knots),
        Way::Falling => in_direction(b, false, knots),
        Way::Level => Turning::Flat,
    }
}

// Whether the curve goes against the direction from its own start to its own end: exactly, whatever way its knots go.
pub fn turns_back(b: Basis, knots: &[i64]) -> Result<Turning, Refusal>
    ensures { result ≡ turns_back_of b (held_all knots.now) }
{
    verdict(b, knots)?;
    Ok(by_ends(b, knots))
}
