// The search for the segment of a curve to enter. Rust: the two searches of `spline_inverse` in src/spline_trait.rs.
#![tactic(auto)]

ghost use Rattle.std.specs.Prelude.{◌≡◌, ◌+◌, ◌-◌, ◌*◌, ◌≤◌, ◌<◌, length, drop};
ghost use Rattle.basis.specs.Basis.{most_knots, step_of, matrix_of};
ghost use Rattle.spline.specs.Segment.{row_sums_of};
ghost use Rattle.inverse_search.specs.Bound.{bits_of, bound_of};
ghost use Rattle.inverse_search.specs.Contract.{
  count_in,
  number_of,
  ground_of,
  doubles_of,
  TrialIs,
  TriesIs,
  LastIs,
  HalveIs,
  FindIs,
};

use basis::Basis;
use inverse_segment::{Ground, Method, Stop, Trial};
use spline::RowSums;

// What a search comes to: none of the segments after so many evaluations, or the segment that was entered and where it stopped there.
#[derive(Clone, Copy)]
pub enum SearchResult {
    OffCurve(u32),
    Entered(usize, Stop),
}

// The evaluations counted, wherever the search came to.
pub fn count_of(a: SearchResult) -> u32
    ensures { result ≡ count_in a }
{
    match a {
        SearchResult::OffCurve(m) => m,
        SearchResult::Entered(s, e) => e.count,
    }
}

// Up to so many segments are tried in order; more of them by halving.
const IN_ORDER: usize = 12;

// How many binary digits k has, up to its highest 1.
pub fn bits(k: usize) -> u32
    ensures answer { result ≡ bits_of k }
    ensures most { result ≤ 64 }
{
    64 - usize::leading_zeros(k)
}

// The most evaluations that an inversion of k segments makes.
pub fn most_evaluations(k: usize, limit: u16) -> u32
    ensures { result ≡ bound_of k limit }
{
    if k <= IN_ORDER {
        limit as u32 + 24
    } else {
        limit as u32 + 2 * bits(k) + 4
    }
}

// The row sums of segment s: the part of the knots that starts at its place is lent, and nothing copied.
pub fn row_sums_at(b: Basis, knots: &[f64], s: usize) -> RowSums
    requires inside { s * step_of b + 4 ≤ length knots.now }
    requires most { length knots.now ≤ most_knots }
    ensures { result ≡ row_sums_of (matrix_of b) (drop (s * step_of b) knots.now) }
{
    let start = s * basis::step(b);
    spline::segment::row_sums(b, &knots[start..])
}

// Segment s is tried, after n evaluations: the part of the knots that starts at its place is lent, and nothing copied.
fn try_at(
    how: Method,
    b: Basis,
    knots: &[f64],
    s: usize,
    y: f64,
    precision: f64,
    limit: u16,
    n: u32,
) -> Trial
    requires inside { s * step_of b + 4 ≤ length knots.now }
    requires most { length knots.now ≤ most_knots }
    requires count { n ≤ 900000 }
    ensures { TrialIs how b knots.now y precision limit s n result }
{
    let start = s * basis::step(b);
    inverse_segment::enter(how, b, &knots[start..], y, precision, limit, n)
}

// The segments from `first` up to below `end`, in order: the first whose ends enclose the target is entered.
pub fn tries(
    how: Method,
    b: Basis,
    knots: &[f64],
    y: f64,
    precision: f64,
    limit: u16,
    first: usize,
    end: usize,
    count: u32,
) -> SearchResult
    requires inside { end * step_of b + 4 ≤ length knots.now + step_of b }
    requires most { length knots.now ≤ most_knots }
    requires last { end ≤ most_knots }
    requires first { first ≤ end }
    requires count { count ≤ 100000 }
    ensures { TriesIs how b knots.now y precision limit (end - first) first count result }
{
    let mut made = count;
    for s in first..end {
        let t = try_at(how, b, knots, s, y, precision, limit, made);
        if let Trial::Inside(e) = t {
            return SearchResult::Entered(s, e);
        }
        made += 2;
    }
    SearchResult::OffCurve(made)
}

// The halving ended at `left` of k segments without one that encloses the target: those beside it are tried once more.
pub fn last_tries(
    how: Method,
    b: Basis,
    knots: &[f64],
    y: f64,
    precision: f64,
    limit: u16,
    k: usize,
    left: usize,
    count: u32,
) -> SearchResult
    requires inside { k * step_of b + 4 ≤ length knots.now + step_of b }
    requires most { length knots.now ≤ most_knots }
    requires some { 0 < k }
    requires segments { k ≤ most_knots }
    requires left { left ≤ k }
    requires count { count ≤ 90000 }
    ensures { LastIs how b knots.now y precision limit k left count result }
{
    let first = left.saturating_sub(1);
    let end = (first + 2).min(k);
    tries(how, b, knots, y, precision, limit, first, end, count)
}

// A ground by a number above 0, and back.
fn number_of(g: Ground) -> u32
    ensures { result ≡ number_of g }
{
    match g {
        Ground::End => 1,
        Ground::Edge => 2,
        Ground::Value => 3,
        Ground::Width => 4,
        Ground::Spent => 5,
    }
}

// The ground by the number that the search carries it as.
fn ground_of(n: u32) -> Ground
    ensures { result ≡ ground_of n }
{
    match n {
        1 => Ground::End,
        2 => Ground::Edge,
        3 => Ground::Value,
        4 => Ground::Width,
        _ => Ground::Spent,
    }
}

// The stop is told in what is lent for it, double by double.
fn tell(e: Stop, ground: &mut u32, made: &mut u32, place: &mut [f64; 3])
    ensures ground { ground.new ≡ number_of e.ground }
    ensures made { made.new ≡ e.count }
    ensures place { place.new ≡ doubles_of e }
{
    let g = e.ground;
    *ground = number_of(g);
    *made = e.count;
    *place = [e.local, e.lower, e.upper];
}

// The `wide` segments from `left` on are open: the middle one is tried, then the part before it or the part after it is searched.
// The answer is the segment that was entered, and its stop is told; or, where the ground's number is still 0, where the last open one was.
// As many halvings as the count has bits are enough. All that is handed on is a machine word, the knots behind a second reference and the
// stop in what is lent: so the compiler makes a loop of the recursion.
pub fn halve(
    how: Method,
    b: Basis,
    knots: &&[f64],
    y: f64,
    precision: f64,
    limit: u16,
    rising: bool,
    left: usize,
    wide: usize,
    halvings: u32,
    ground: &mut u32,
    made: &mut u32,
    place: &mut [f64; 3],
) -> usize
    requires inside { (left + wide) * step_of b + 4 ≤ length knots.now.now + step_of b }
    requires most { length knots.now.now ≤ most_knots }
    requires segments { left + wide ≤ most_knots }
    requires none { ground.old ≡ 0 }
    requires count { made.old + 2 * halvings ≤ 90000 }
    ensures answer { HalveIs how b knots.now.now y precision limit rising halvings left wide made.old result
        ground.new made.new place.new }
    ensures left { result ≤ left + wide }
    ensures count_after { ground.new ≡ 0 → made.new ≤ made.old + 2 * halvings }
{
    if wide == 0 {
        return left;
    }
    if halvings == 0 {
        return left;
    }
    let half = (wide - 1) / 2;
    let mid = left + half;
    let t = try_at(how, b, *knots, mid, y, precision, limit, *made);
    match t {
        Trial::Inside(e) => {
            tell(e, ground, made, place);
            mid
        }
        Trial::Outside(v) => {
            *made = *made + 2;
            if inverse_order::lies_before(rising, y, v) {
                halve(
                    how,
                    b,
                    knots,
                    y,
                    precision,
                    limit,
                    rising,
                    left,
                    half,
                    halvings - 1,
                    ground,
                    made,
                    place,
                )
            } else {
                halve(
                    how,
                    b,
                    knots,
                    y,
                    precision,
                    limit,
                    rising,
                    mid + 1,
                    wide - 1 - half,
                    halvings - 1,
                    ground,
                    made,
                    place,
                )
            }
        }
    }
}

// The search, and where the inversion stopped in the segment that it came to; `count` evaluations have been made before.
// Up to 12 segments are tried in order; above, by halving, and then those beside where it ended.
pub fn find(
    how: Method,
    b: Basis,
    knots: &[f64],
    y: f64,
    precision: f64,
    limit: u16,
    rising: bool,
    k: usize,
    count: u32,
) -> SearchResult
    requires inside { k * step_of b + 4 ≤ length knots.now + step_of b }
    requires most { length knots.now ≤ most_knots }
    requires some { 0 < k }
    requires segments { k ≤ most_knots }
    requires count { count ≤ 1000 }
    ensures { FindIs how b knots.now y precision limit rising k count result }
{
    if k <= IN_ORDER {
        return tries(how, b, knots, y, precision, limit, 0, k, count);
    }
    let mut ground = 0;
    let mut made = count;
    let mut place = [0.0, 0.0, 0.0];
    let lent = knots;
    let s = halve(
        how,
        b,
        &lent,
        y,
        precision,
        limit,
        rising,
        0,
        k,
        bits(k),
        &mut ground,
        &mut made,
        &mut place,
    );
    if ground == 0 {
        return last_tries(how, b, knots, y, precision, limit, k, s, made);
    }
    SearchResult::Entered(
        s,
        Stop {
            ground: ground_of(ground),
            local: place[0],
            lower: place[1],
            upper: place[2],
            count: made,
        },
    )
}
