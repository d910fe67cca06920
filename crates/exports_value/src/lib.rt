// The exports of lengths, values, claims and depths: each function has the contract of the export that calls it.
#![tactic(auto)]

ghost use Rattle.std.specs.Prelude.{◌≡◌, cond};
ghost use Rattle.basis.specs.Basis.{length_ok};
ghost use Rattle.spline.specs.Evaluation.{spline_of, spline_segment_of};
ghost use Rattle.claim.specs.Claim.{claim_of};
ghost use Rattle.uneven.specs.Uneven.{depth_of};
ghost use Rattle.exports_reply.specs.Replies.{chosen_of, no_basis, chosen, evaluated_reply, value_left};
ghost use Rattle.exports_value.specs.Claims.{claimed_reply, holds_left};
ghost use Rattle.exports_value.specs.Uneven.{named_reply, sounded_reply, depth_left, depth_place_left, depth_whole_left};

use error::Refusal;
use uneven::{Depth, DepthMiss, WhichTable};

// 1 or 0; 255 for a number that is no basis, here and in every other call.
pub fn is_len_ok(basis: u8, n: usize) -> u8
    ensures { result ≡ chosen (chosen_of basis) no_basis (λ b. cond (length_ok b n) 1 0) }
{
    let c = exports_reply::basis_of(basis);
    let Some(b) = c else {
        return 255;
    };
    if basis::is_len_ok(b, n) { 1 } else { 0 }
}

// A curve's value.
pub fn spline(basis: u8, x: f64, knots: &[f64], value: &mut f64) -> u32
    ensures answer { result ≡ chosen (chosen_of basis) no_basis (λ b. evaluated_reply (spline_of b x knots.now)) }
    ensures value { value.new ≡ chosen (chosen_of basis) value.old
        (λ b. value_left (spline_of b x knots.now) value.old) }
{
    let c = exports_reply::basis_of(basis);
    let Some(b) = c else {
        return exports_reply::UNKNOWN;
    };
    exports_reply::value_told(spline::spline(b, x, knots), value)
}

// One segment's value.
pub fn spline_segment(basis: u8, x: f64, cv: &[f64], value: &mut f64) -> u32
    ensures answer { result ≡ chosen (chosen_of basis) no_basis (λ b. evaluated_reply (spline_segment_of b x cv.now)) }
    ensures value { value.new ≡ chosen (chosen_of basis) value.old
        (λ b. value_left (spline_segment_of b x cv.now) value.old) }
{
    let c = exports_reply::basis_of(basis);
    let Some(b) = c else {
        return exports_reply::UNKNOWN;
    };
    exports_reply::value_told(spline::spline_segment(b, x, cv), value)
}

// Whether the claim holds is written and answered by 0; a refusal writes nothing.
fn claimed_told(c: Result<bool, Refusal>, holds: &mut bool) -> u32
    ensures answer { result ≡ claimed_reply c }
    ensures holds { holds.new ≡ holds_left c holds.old }
{
    match c {
        Ok(h) => {
            *holds = h;
            0
        }
        Err(r) => error::reply(r),
    }
}

// Whether a segment of the curve, at the local place x, is within twice the precision of y.
pub fn check_claim(
    basis: u8,
    y: f64,
    segment: usize,
    x: f64,
    precision: f64,
    knots: &[f64],
    holds: &mut bool,
) -> u32
    ensures answer { result ≡ chosen (chosen_of basis) no_basis
        (λ b. claimed_reply (claim_of b y segment x precision knots.now)) }
    ensures holds { holds.new ≡ chosen (chosen_of basis) holds.old
        (λ b. holds_left (claim_of b y segment x precision knots.now) holds.old) }
{
    let c = exports_reply::basis_of(basis);
    let Some(b) = c else {
        return exports_reply::UNKNOWN;
    };
    claimed_told(
        claim::check_claim(b, y, segment, x, precision, knots),
        holds,
    )
}

// The highest bit is set where the depths are meant.
fn named_reply(t: WhichTable, r: Refusal) -> u32
    ensures { result ≡ named_reply t r }
{
    match t {
        WhichTable::Times => error::reply(r),
        WhichTable::Depths => {
            2147483648 + (error::number(r) as u32 + 256 * (error::place(r) as u32))
        }
    }
}

// A depth leaves all; 11 leaves the count of the inversion.
fn sounded_told(
    a: Result<Depth, DepthMiss>,
    depth: &mut f64,
    place: &mut [f64; 4],
    whole: &mut [usize; 4],
) -> u32
    ensures answer { result ≡ sounded_reply a }
    ensures value { depth.new ≡ depth_left a depth.old }
    ensures place { place.new ≡ depth_place_left a place.old }
    ensures whole { whole.new ≡ depth_whole_left a whole.old }
{
    match a {
        Ok(d) => {
            let p = d.place;
            let g = p.ground;
            *depth = d.depth;
            *place = [p.parameter, p.local, p.lower, p.upper];
            *whole = [
                exports_reply::ground_number(g),
                p.segment,
                p.count as usize,
                d.count as usize,
            ];
            0
        }
        Err(DepthMiss::OffCurve(n)) => {
            whole[2] = n;
            error::reply(Refusal::OffCurve)
        }
        Err(DepthMiss::Refused(t, r)) => named_reply(t, r),
    }
}

// The depth at y of the times.
pub fn depth_at(
    tb: u8,
    times: &[f64],
    db: u8,
    depths: &[f64],
    y: f64,
    limit: u16,
    precision: f64,
    depth: &mut f64,
    place: &mut [f64; 4],
    whole: &mut [usize; 4],
) -> u32
    ensures answer { result ≡ chosen (chosen_of tb) no_basis
        (λ t. chosen (chosen_of db) no_basis
        (λ d. sounded_reply (depth_of t times.now d depths.now y limit precision))) }
    ensures value { depth.new ≡ chosen (chosen_of tb) depth.old
        (λ t. chosen (chosen_of db) depth.old
        (λ d. depth_left (depth_of t times.now d depths.now y limit precision) depth.old)) }
    ensures place { place.new ≡ chosen (chosen_of tb) place.old
        (λ t. chosen (chosen_of db) place.old
        (λ d. depth_place_left (depth_of t times.now d depths.now y limit precision) place.old)) }
    ensures whole { whole.new ≡ chosen (chosen_of tb) whole.old
        (λ t. chosen (chosen_of db) whole.old
        (λ d. depth_whole_left (depth_of t times.now d depths.now y limit precision) whole.old)) }
{
    let c = exports_reply::basis_of(tb);
    let Some(t) = c else {
        return exports_reply::UNKNOWN;
    };
    let e = exports_reply::basis_of(db);
    let Some(d) = e else {
        return exports_reply::UNKNOWN;
    };
    sounded_told(
        uneven::depth_at(t, times, d, depths, y, limit, precision),
        depth,
        place,
        whole,
    )
}
