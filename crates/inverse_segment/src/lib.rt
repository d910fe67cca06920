// Inversion of one segment: its calls, by each method, and the one operation that enters a segment. Rust: `spline_inverse_segment` of
// src/spline_trait.rs, and `invert` of src/lib.rs.
#![tactic(auto)]

ghost use Rattle.std.specs.Prelude.{◌≡◌, ◌≤◌, ◌+◌, length};
ghost use Rattle.basis.specs.Basis.{matrix_of};
ghost use Rattle.spline.specs.Segment.{row_sums_of};
ghost use Rattle.inverse_segment.specs.Round.{is_last};
ghost use Rattle.inverse_segment.specs.declared.Miss.TheVariants.{Refused};
ghost use Rattle.inverse_segment.specs.Segment.{encloses, near};
ghost use Rattle.inverse_segment.specs.Answer.{inverse_segment_by, inverse_segment_of, default_limit, default_precision};
ghost use Rattle.inverse_segment.specs.Method.{rule_of, steady_segment_of};
ghost use Rattle.inverse_segment.specs.Contract.{stop_at, place_at, EnteredIs, EnterIs, ends_of};

use basis::Basis;
use basis::basis_macros::by_basis;
use error::Refusal;
use spline::RowSums;

pub mod choice;
pub mod refusals;
pub mod round;

// The calls by default ask for at most so many rounds, and for this precision.
pub const DEFAULT_LIMIT: u16 = 32;

pub const DEFAULT_PRECISION: f64 = 1e-10;

// The steady method's limit by default: more rounds than it makes at the default precision, so that it is never spent.
pub const STEADY_LIMIT: u16 = 64;

// Why an inversion stopped: the target lies at or beyond an end of the curve; a segment's start or end is within twice the precision of it;
// the value at the place is within the precision; the bracket is narrower than the precision; or all rounds were made.
#[derive(Clone, Copy)]
pub enum Ground {
    End,
    Edge,
    Value,
    Width,
    Spent,
}

// How the next place is chosen: as the crate does; with the weighting as it is taught; or steadily, at a pace: a round allows the bracket
// half the width that the round before it did, and takes the midpoint of one that is wider.
#[derive(Clone, Copy)]
pub enum Method {
    AsCrate,
    Taught,
    Steady,
}

// Two local places and their values, as weighed.
#[derive(Clone, Copy)]
pub struct Bracket {
    pub lower: f64,
    pub upper: f64,
    pub v0: f64,
    pub v1: f64,
}

// An end of a bracket.
#[derive(Clone, Copy)]
pub enum Side {
    Lower,
    Upper,
}

// Whether the end moved last.
fn is_last(end: Side, last: Option<Side>) -> bool
    ensures { result ≡ is_last end last }
{
    match end {
        Side::Lower => matches!(last, Some(Side::Lower)),
        Side::Upper => matches!(last, Some(Side::Upper)),
    }
}

// What a round is given: the bracket, the end that moved last, if one did, and how often that was repeated.
#[derive(Clone, Copy)]
pub struct State {
    pub bracket: Bracket,
    pub side: Option<Side>,
    pub repeats: u32,
}

// The bracket as weighed, and the place that is evaluated.
#[derive(Clone, Copy)]
pub struct NextPlace {
    pub bracket: Bracket,
    pub place: f64,
}

// What a round leaves: an answer, or the next round's state; with the count of evaluations.
#[derive(Clone, Copy)]
pub enum RoundResult {
    Done(Ground, f64, Bracket, u32),
    Next(State, u32),
}

// A segment's row sums, and the values of both its ends.
#[derive(Clone, Copy)]
struct SegmentEnds {
    pub sums: RowSums,
    pub v0: f64,
    pub v1: f64,
}

// Where an inversion stopped in the segment that it entered, and why, the bracket after its last move, and the evaluations counted.
// No two doubles stand side by side, here and in `Place`: they would be written one by one and copied two at a time, and a processor waits
// for that.
#[derive(Clone, Copy)]
pub struct Stop {
    pub local: f64,
    pub ground: Ground,
    pub lower: f64,
    pub count: u32,
    pub upper: f64,
}

// What trying a segment comes to: its ends do not enclose the target, and the value of its start; or where the inversion stopped in it.
#[derive(Clone, Copy)]
pub enum Trial {
    Outside(f64),
    Inside(Stop),
}

// Where the target was found: the stop, with the segment's number and the parameter.
#[derive(Clone, Copy)]
pub struct Place {
    pub parameter: f64,
    pub ground: Ground,
    pub local: f64,
    pub segment: usize,
    pub lower: f64,
    pub count: u32,
    pub upper: f64,
}

// Why there is no place: a row of the table refuses the call, or no segment's ends enclose the target, after so many evaluations.
#[derive(Clone, Copy)]
pub enum Miss {
    Refused(Refusal),
    OffCurve(usize),
}

impl From<Refusal> for Miss {
    ghost from_gives = { λ r e. e ≡ Refused r };

    fn from(r: Refusal) -> Miss {
        Miss::Refused(r)
    }
}

// Where an inversion stopped, why, and after how many evaluations.
pub fn stopped(ground: Ground, x: f64, b: Bracket, n: u32) -> Stop
    ensures { result ≡ stop_at ground x b n }
{
    Stop {
        ground: ground,
        local: x,
        lower: b.lower,
        upper: b.upper,
        count: n,
    }
}

// The parameter is the caller's to find: on a curve it goes by all the segments, on one segment it is the local place.
pub fn place_of(parameter: f64, s: usize, e: Stop) -> Place
    ensures { result ≡ place_at parameter s e }
{
    let ground = e.ground;
    Place {
        parameter: parameter,
        ground: ground,
        segment: s,
        local: e.local,
        lower: e.lower,
        upper: e.upper,
        count: e.count,
    }
}

// Whether the target lies between the two values, in either order.
fn encloses(v0: f64, v1: f64, y: f64) -> bool
    ensures { result ≡ encloses v0 v1 y }
{
    if v0 < v1 {
        v0 <= y && y <= v1
    } else {
        v1 <= y && y <= v0
    }
}

// Whether a value is less than twice the precision from the target: at a segment's end the inversion then stops.
pub fn is_near(y: f64, v: f64, precision: f64) -> bool
    ensures { result ≡ near y v precision }
{
    doubles::magnitude(y - v) < 2.0 * precision
}

// A segment whose end values v0 and v1 enclose y is entered; n evaluations have been made, those of its ends among them.
fn entered(
    how: Method,
    w: RowSums,
    y: f64,
    precision: f64,
    limit: u16,
    v0: f64,
    v1: f64,
    n: u32,
) -> Stop
    requires { n ≤ 1000000 }
    ensures { EnteredIs how w y precision limit v0 v1 n result }
{
    let whole = Bracket {
        lower: 0.0,
        upper: 1.0,
        v0: v0,
        v1: v1,
    };
    if is_near(y, v0, precision) {
        return stopped(Ground::Edge, 0.0, whole, n);
    }
    if is_near(y, v1, precision) {
        return stopped(Ground::Edge, 1.0, whole, n);
    }
    round::rounds(how, w, y, precision, v0 < v1, whole, limit, n)
}

// A segment's row sums, and its values at 0 and 1.
fn ends_of(w: RowSums) -> SegmentEnds
    ensures { result ≡ ends_of w }
{
    let v0 = spline::segment::horner(w, 0.0);
    let v1 = spline::segment::horner(w, 1.0);
    SegmentEnds {
        sums: w,
        v0: v0,
        v1: v1,
    }
}

// The same of four knots, by the matrix of the basis.
fn ends_in(b: Basis, cv: &[f64]) -> SegmentEnds
    requires { 4 ≤ length cv.now }
    ensures { result ≡ ends_of (row_sums_of (matrix_of b) cv.now) }
{
    by_basis(b, |terms| ends_of(spline::segment::sums(terms.matrix, cv)))
}

// The segment whose four knots stand at the front of cv is tried: both its ends are evaluated, once, and it is entered where they enclose
// y. n evaluations have been made before.
pub fn enter(how: Method, b: Basis, cv: &[f64], y: f64, precision: f64, limit: u16, n: u32) -> Trial
    requires enough { 4 ≤ length cv.now }
    requires count { n ≤ 900000 }
    ensures { EnterIs how b cv.now y precision limit n result }
{
    let ends = ends_in(b, cv);
    let w = ends.sums;
    let v0 = ends.v0;
    let v1 = ends.v1;
    if encloses(v0, v1, y) {
        return Trial::Inside(entered(how, w, y, precision, limit, v0, v1, n + 2));
    }
    Trial::Outside(v0)
}

// The place of y on the segment whose four knots are cv, by the method that is asked for.
// Off the segment by `let .. else`: docs/PROMISES.md promises this form here.
pub fn spline_inverse_segment_by(
    b: Basis,
    y: f64,
    cv: &[f64],
    limit: u16,
    precision: f64,
    how: Method,
) -> Result<Place, Miss>
    ensures { result ≡ inverse_segment_by (rule_of how) b y cv.now limit precision }
{
    refusals::segment_verdict(y, cv, limit, precision)?;
    let t = enter(how, b, cv, y, precision, limit, 0);
    let Trial::Inside(e) = t else {
        return Err(Miss::OffCurve(2));
    };
    Ok(place_of(e.local, 0, e))
}

// As the crate inverts.
pub fn spline_inverse_segment_with(
    b: Basis,
    y: f64,
    cv: &[f64],
    limit: u16,
    precision: f64,
) -> Result<Place, Miss>
    ensures { result ≡ inverse_segment_of b y cv.now limit precision }
{
    spline_inverse_segment_by(b, y, cv, limit, precision, Method::AsCrate)
}

// As the crate inverts, with limit 32 and precision 1e-10.
pub fn spline_inverse_segment(b: Basis, y: f64, cv: &[f64]) -> Result<Place, Miss>
    ensures { result ≡ inverse_segment_of b y cv.now default_limit default_precision }
{
    spline_inverse_segment_with(b, y, cv, DEFAULT_LIMIT, DEFAULT_PRECISION)
}

// By the steady method, with limit 64 and precision 1e-10.
pub fn spline_inverse_segment_steady(b: Basis, y: f64, cv: &[f64]) -> Result<Place, Miss>
    ensures { result ≡ steady_segment_of b y cv.now }
{
    spline_inverse_segment_by(b, y, cv, STEADY_LIMIT, DEFAULT_PRECISION, Method::Steady)
}
