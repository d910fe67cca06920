// A curve over uneven times: a table of times is inverted, and a table of depths evaluated there. Rust: the example of src/lib.rs.
#![tactic(auto)]

ghost use Rattle.std.specs.Prelude.{◌≡◌, ◌<◌};
ghost use Rattle.inverse_segment.specs.Answer.{count_told};
ghost use Rattle.uneven.specs.Uneven.{depth_at, suited, unsuited, depth_of};
ghost use Rattle.uneven.specs.Contract.{asked_at, verdict_of};

use basis::Basis;
use error::Refusal;
use inverse_segment::{Miss, Place};

// Which of the two tables a refusal is about.
#[derive(Clone, Copy)]
pub enum WhichTable {
    Times,
    Depths,
}

// The depth, the record of the inversion, and the evaluations of both tables.
#[derive(Clone, Copy)]
pub struct Depth {
    pub depth: f64,
    pub place: Place,
    pub count: u32,
}

// Why there is no depth: a row of the table refuses one of the tables, and which; or the time is not on the curve, after so many evaluations.
#[derive(Clone, Copy)]
pub enum DepthMiss {
    Refused(WhichTable, Refusal),
    OffCurve(usize),
}

// Where the depths are evaluated: at the parameter of the place, and at 0 where there is none, for what they are refused with.
fn asked_at(a: Result<Place, Miss>) -> f64
    ensures { result ≡ asked_at a }
{
    match a {
        Ok(p) => p.parameter,
        Err(_) => 0.0,
    }
}

// The rows of the depths: those of their evaluation, then 18.
fn depths_verdict(e: Result<f64, Refusal>, equal: bool) -> Result<(), Refusal>
    ensures { result ≡ verdict_of e equal }
{
    match e {
        Err(r) => Err(r),
        Ok(_) => {
            if equal {
                return Ok(());
            }
            Err(Refusal::UnequalSegments)
        }
    }
}

// The depth at a place, and one evaluation more.
fn depth_of(p: Place, e: Result<f64, Refusal>) -> Result<Depth, DepthMiss>
    requires { p.count < 4294967295 }
    ensures { result ≡ depth_at p e }
{
    match e {
        Ok(d) => Ok(Depth {
            depth: d,
            place: p,
            count: p.count + 1,
        }),
        Err(r) => Err(DepthMiss::Refused(WhichTable::Depths, r)),
    }
}

// Where no row of the depths applies.
fn suited(a: Result<Place, Miss>, e: Result<f64, Refusal>) -> Result<Depth, DepthMiss>
    requires { count_told a < 4294967295 }
    ensures { result ≡ suited a (λ _. e) }
{
    match a {
        Err(Miss::Refused(r)) => Err(DepthMiss::Refused(WhichTable::Times, r)),
        Err(Miss::OffCurve(n)) => Err(DepthMiss::OffCurve(n)),
        Ok(p) => depth_of(p, e),
    }
}

// The reply where the depths are refused with r: a refusal of the times comes before r, but 11 comes after it.
fn unsuited(a: Result<Place, Miss>, r: Refusal) -> Result<Depth, DepthMiss>
    ensures { result ≡ unsuited a r }
{
    match a {
        Err(Miss::Refused(q)) => Err(DepthMiss::Refused(WhichTable::Times, q)),
        Err(Miss::OffCurve(_)) => Err(DepthMiss::Refused(WhichTable::Depths, r)),
        Ok(_) => Err(DepthMiss::Refused(WhichTable::Depths, r)),
    }
}

// The depth at y of the times, which must not turn back: the library's inversion, then its evaluation.
pub fn depth_at(
    tb: Basis,
    times: &[f64],
    db: Basis,
    depths: &[f64],
    y: f64,
    limit: u16,
    precision: f64,
) -> Result<Depth, DepthMiss>
    ensures { result ≡ depth_of tb times.now db depths.now y limit precision }
{
    let a = inverse::spline_inverse_with(tb, y, times, true, limit, precision);
    let e = spline::spline(db, asked_at(a), depths);
    let equal = inverse::segments(tb, times.len()) == inverse::segments(db, depths.len());
    let v = depths_verdict(e, equal);
    match v {
        Err(r) => unsuited(a, r),
        Ok(()) => suited(a, e),
    }
}
