// Inversion of a curve. Rust: `spline_inverse` of src/spline_trait.rs.
#![tactic(auto)]

ghost use Rattle.std.specs.Prelude.{◌≡◌, true, false, ◌+◌, ◌*◌, ◌≤◌, ◌<◌, length};
ghost use Rattle.std.specs.Float.Ieee.{is_nan};
ghost use Rattle.basis.specs.Basis.{most_knots, segments_of};
ghost use Rattle.spline.specs.Segment.{segment_of};
ghost use Rattle.checks.specs.Checks.{all_in_range};
ghost use Rattle.inverse_segment.specs.Answer.{default_limit, default_precision};
ghost use Rattle.inverse_segment.specs.Method.{rule_of};
ghost use Rattle.inverse.specs.EndRule.{at_low, at_high, knot_ends, curve_rule, end_rule_of, own};
ghost use Rattle.inverse.specs.Curve.{parameter_of, located};
ghost use Rattle.inverse.specs.Inverse.{inverse_by, inverse_of, steady_of, most_of};
ghost use Rattle.inverse.specs.Contract.{EndedIs, SearchedIs, LocatedIs};

use basis::Basis;
use inverse_order::EndsBy;
use inverse_search::SearchResult;
use inverse_segment::{
    DEFAULT_LIMIT, DEFAULT_PRECISION, Ground, Method, Miss, Place, STEADY_LIMIT,
};

pub mod refusals;

// What the caller may choose: whether knots that turn back are refused, the most rounds, the precision, the end rule and the method.
#[derive(Clone, Copy)]
pub struct Options {
    pub check: bool,
    pub limit: u16,
    pub precision: f64,
    pub ends: EndsBy,
    pub method: Method,
}

// What the end rule goes by: the direction, and a value at either end.
#[derive(Clone, Copy)]
pub struct Ends {
    pub rising: bool,
    pub low: f64,
    pub high: f64,
}

// The ends by the knots: for a basis of step 1 the second and the last but one, else the first and the last.
fn knot_ends(b: Basis, knots: &[f64]) -> Ends
    requires { 4 ≤ length knots.now }
    ensures { result ≡ knot_ends b knots.now }
{
    let n = knots.len();
    let rising = inverse_order::rising(knots);
    if basis::step(b) == 1 {
        return Ends {
            rising: rising,
            low: knots[1],
            high: knots[n - 2],
        };
    }
    Ends {
        rising: rising,
        low: knots[0],
        high: knots[n - 1],
    }
}

// Whether the target lies at the curve's start or before it.
fn is_at_low(e: Ends, y: f64) -> bool
    ensures { result ≡ at_low e y }
{
    if e.rising { y <= e.low } else { e.low <= y }
}

// Whether the target lies at the curve's end or beyond it.
fn is_at_high(e: Ends, y: f64) -> bool
    ensures { result ≡ at_high e y }
{
    if e.rising { e.high <= y } else { y <= e.high }
}

// By the curve's own ends, of k segments: two evaluations.
pub fn curve_ends(b: Basis, knots: &[f64], k: usize) -> Ends
    requires segments { k ≡ segments_of b (length knots.now) }
    requires enough { 4 ≤ length knots.now }
    requires most { length knots.now ≤ most_knots }
    ensures { result ≡ (curve_rule (segment_of b knots.now) k).ends }
{
    let start = spline::segment::horner(inverse_search::row_sums_at(b, knots, 0), 0.0);
    let end = spline::segment::horner(inverse_search::row_sums_at(b, knots, k - 1), 1.0);
    Ends {
        rising: start < end,
        low: start,
        high: end,
    }
}

// The end rule's answer at a local place of segment s; n evaluations were made.
fn end_place(s: usize, x: f64, n: u32) -> Result<Place, Miss>
    ensures { EndedIs n s x result }
{
    Ok(Place {
        parameter: x,
        ground: Ground::End,
        segment: s,
        local: x,
        lower: x,
        upper: x,
        count: n,
    })
}

// The parameter of the local place x in segment s of k.
fn parameter(k: usize, s: usize, x: f64) -> f64
    requires segments { k ≤ most_knots }
    requires segment { s ≤ most_knots }
    ensures { result ≡ parameter_of k s x }
{
    (doubles::whole::double_of(s) + x) * (1.0 / doubles::whole::double_of(k))
}

// The search's answer, with the parameter of its place on the whole curve; n evaluations have been made before.
// Off the curve by `let .. else`: docs/PROMISES.md promises this form here.
pub fn searched(
    how: Method,
    b: Basis,
    y: f64,
    knots: &[f64],
    limit: u16,
    precision: f64,
    rising: bool,
    k: usize,
    n: u32,
) -> Result<Place, Miss>
    requires segments { k ≡ segments_of b (length knots.now) }
    requires enough { 4 ≤ length knots.now }
    requires most { length knots.now ≤ most_knots }
    requires number { is_nan y ≡ false }
    requires range { all_in_range knots.now ≡ true }
    requires count { n ≤ 1000 }
    ensures { SearchedIs how b y knots.now limit precision rising k n result }
{
    let a = inverse_search::find(how, b, knots, y, precision, limit, rising, k, n);
    let SearchResult::Entered(s, e) = a else {
        return Err(Miss::OffCurve(inverse_search::count_of(a) as usize));
    };
    Ok(inverse_segment::place_of(parameter(k, s, e.local), s, e))
}

// The end rule, then the search; n evaluations have been made for the rule.
fn located(
    how: Method,
    e: Ends,
    n: u32,
    b: Basis,
    y: f64,
    knots: &[f64],
    limit: u16,
    precision: f64,
    k: usize,
) -> Result<Place, Miss>
    requires segments { k ≡ segments_of b (length knots.now) }
    requires enough { 4 ≤ length knots.now }
    requires most { length knots.now ≤ most_knots }
    requires number { is_nan y ≡ false }
    requires range { all_in_range knots.now ≡ true }
    requires count { n ≤ 1000 }
    ensures { LocatedIs how e b y knots.now limit precision k n result }
{
    if is_at_low(e, y) {
        return end_place(0, 0.0, n);
    }
    if is_at_high(e, y) {
        return end_place(k - 1, 1.0, n);
    }
    searched(how, b, y, knots, limit, precision, e.rising, k, n)
}

// What the end rule goes by. It stands apart so that `locate` calls `located` in one place alone, and the compiler can inline it there.
fn ends_by(ends: EndsBy, b: Basis, knots: &[f64], k: usize) -> Ends
    requires segments { k ≡ segments_of b (length knots.now) }
    requires enough { 4 ≤ length knots.now }
    requires most { length knots.now ≤ most_knots }
    ensures { result ≡ (end_rule_of ends b knots.now (segment_of b knots.now)).ends }
{
    match ends {
        EndsBy::Knots => knot_ends(b, knots),
        EndsBy::Curve => curve_ends(b, knots, k),
    }
}

// How many evaluations finding the ends takes.
fn evaluations(ends: EndsBy) -> u32
    ensures answer { result ≡ own ends }
    ensures most { result ≤ 2 }
{
    match ends {
        EndsBy::Knots => 0,
        EndsBy::Curve => 2,
    }
}

// The inversion where no row refuses it, by the end rule that is asked for.
fn locate(
    ends: EndsBy,
    how: Method,
    b: Basis,
    y: f64,
    knots: &[f64],
    limit: u16,
    precision: f64,
) -> Result<Place, Miss>
    requires enough { 4 ≤ length knots.now }
    requires most { length knots.now ≤ most_knots }
    requires number { is_nan y ≡ false }
    requires range { all_in_range knots.now ≡ true }
    ensures { result ≡ located (rule_of how) (end_rule_of ends b knots.now (segment_of b knots.now)).ends
        (end_rule_of ends b knots.now (segment_of b knots.now)).made (segment_of b knots.now)
        (segments_of b (length knots.now)) y precision limit }
{
    let k = basis::segments(b, knots.len());
    located(
        how,
        ends_by(ends, b, knots, k),
        evaluations(ends),
        b,
        y,
        knots,
        limit,
        precision,
        k,
    )
}

// The place of y on the curve, by these options; where they ask for the order check, knots that turn back are refused.
pub fn spline_inverse_by(o: Options, b: Basis, y: f64, knots: &[f64]) -> Result<Place, Miss>
    ensures { result ≡ inverse_by o.ends o.method b y knots.now o.check o.limit o.precision }
{
    refusals::verdict(b, y, knots, o.check, o.limit, o.precision)?;
    let ends = o.ends;
    let method = o.method;
    locate(ends, method, b, y, knots, o.limit, o.precision)
}

// The place of y on the curve; with `check`, knots that turn back are refused.
pub fn spline_inverse_with(
    b: Basis,
    y: f64,
    knots: &[f64],
    check: bool,
    limit: u16,
    precision: f64,
) -> Result<Place, Miss>
    ensures { result ≡ inverse_of b y knots.now check limit precision }
{
    let o = Options {
        check: check,
        limit: limit,
        precision: precision,
        ends: EndsBy::Knots,
        method: Method::AsCrate,
    };
    spline_inverse_by(o, b, y, knots)
}

// The same with limit 32 and precision 1e-10.
pub fn spline_inverse(b: Basis, y: f64, knots: &[f64], check: bool) -> Result<Place, Miss>
    ensures { result ≡ inverse_of b y knots.now check default_limit default_precision }
{
    spline_inverse_with(b, y, knots, check, DEFAULT_LIMIT, DEFAULT_PRECISION)
}

// By the knots and by the steady method, with limit 64 and precision 1e-10: never spent.
// A call by a name of its own: docs/CALLS.md names it, as it does the others with defaults.
pub fn spline_inverse_steady(b: Basis, y: f64, knots: &[f64], check: bool) -> Result<Place, Miss>
    ensures { result ≡ steady_of b y knots.now check }
{
    let o = Options {
        check: check,
        limit: STEADY_LIMIT,
        precision: DEFAULT_PRECISION,
        ends: EndsBy::Knots,
        method: Method::Steady,
    };
    spline_inverse_by(o, b, y, knots)
}

// How many segments n knots make; fewer than 4 count as 4.
pub fn segments(b: Basis, n: usize) -> usize
    ensures { result ≡ segments_of b n }
{
    if n < 4 {
        return basis::segments(b, 4);
    }
    basis::segments(b, n)
}

// The most evaluations that an inversion of n knots makes by such options, whatever the knots, the target and the precision are: so a task
// can set its time aside before the call. No method makes more rounds than the limit, and without the precision none is known to make
// fewer.
pub fn most_evaluations(b: Basis, n: usize, limit: u16, ends: EndsBy, how: Method) -> u32
    ensures { result ≡ most_of ends how b n limit }
{
    evaluations(ends) + inverse_search::most_evaluations(segments(b, n), limit)
}
