// What the depth at which a job stopped says of the job: how far it had come, and where that cannot be told.
#![tactic(auto)]

ghost use Rattle.std.specs.Prelude.{◌≡◌, true, false, ◌≤◌, length};
ghost use Rattle.basis.specs.Basis.{most_knots};
ghost use Rattle.stopped.specs.Contract.{is_end, by_end};
ghost use Rattle.stopped.specs.Stopped.{ends_of, is_before, is_beyond, between, said_of, stopped_of};
ghost use Rattle.table.specs.Calls.{timed_of};
ghost use Rattle.table_span.specs.Second.{good_span};

use basis::Basis;
use error::Refusal;
use inverse::{Ends, Options};
use inverse_order::EndsBy;
use inverse_segment::{DEFAULT_PRECISION, Ground, Method, Miss, Place, STEADY_LIMIT};
use table_span::Table;

// Refused by a row of the table; not on the curve after so many evaluations; the curve's two ends are equal, so that no depth says
// anything; before the start, at the start, under way with the second and the place, at the end, beyond the end.
#[derive(Clone, Copy)]
pub enum Job {
    Flat,
    Before,
    Start,
    UnderWay(u32, Place),
    End,
    Beyond,
}

// Whether a depth lies before the curve's start.
fn is_before(e: Ends, y: f64) -> bool
    ensures { result ≡ is_before e y }
{
    if e.rising { y < e.low } else { e.low < y }
}

// Whether a depth lies beyond the curve's end.
fn is_beyond(e: Ends, y: f64) -> bool
    ensures { result ≡ is_beyond e y }
{
    if e.rising { e.high < y } else { y < e.high }
}

// What the inversion answers of a depth between the ends, with the second of its place.
fn found(span: u32, i: Result<Place, Miss>) -> Result<Job, Miss>
    requires { good_span span ≡ true }
    ensures { result ≡ between (timed_of span i) }
{
    let p = i?;
    Ok(Job::UnderWay(table_span::second(span, p.parameter), p))
}

// Whether the end rule answered.
fn is_end(g: Ground) -> bool
    ensures { result ≡ is_end g }
{
    match g {
        Ground::End => true,
        Ground::Edge => false,
        Ground::Value => false,
        Ground::Width => false,
        Ground::Spent => false,
    }
}

// Whether the inversion answered by its end rule, and so did not search.
fn is_by_end(i: Result<Place, Miss>) -> bool
    ensures { result ≡ by_end i }
{
    match i {
        Ok(p) => {
            let g = p.ground;
            is_end(g)
        }
        Err(_) => false,
    }
}

// Where the end rule answered: which of its cases it was, by the ends, which are evaluated again.
fn said(b: Basis, span: u32, y: f64, knots: &[f64], i: Result<Place, Miss>) -> Result<Job, Miss>
    requires span { good_span span ≡ true }
    requires enough { 4 ≤ length knots.now }
    requires most { length knots.now ≤ most_knots }
    ensures { result ≡ said_of (ends_of b knots.now) y (timed_of span i) }
{
    let k = basis::segments(b, knots.len());
    let e = inverse::curve_ends(b, knots, k);
    if e.low == e.high {
        return Ok(Job::Flat);
    }
    if y == e.low {
        return Ok(Job::Start);
    }
    if y == e.high {
        return Ok(Job::End);
    }
    if is_before(e, y) {
        return Ok(Job::Before);
    }
    if is_beyond(e, y) {
        return Ok(Job::Beyond);
    }
    found(span, i)
}

// How far a job had come that stopped at the depth y, by the curve's own ends and the steady method with limit 64 and precision 1e-10;
// with `check`, knots that turn back are refused. The search is that of `spline_inverse_by` and stands in no second place: the stack of
// every inversion would grow by it.
pub fn stopped(t: Table, y: f64, knots: &[f64], check: bool) -> Result<Job, Miss>
    ensures { result ≡ stopped_of t y knots.now check }
{
    let b = t.basis;
    let span = t.span;
    if table_span::is_span(span) {
        let o = Options {
            check: check,
            limit: STEADY_LIMIT,
            precision: DEFAULT_PRECISION,
            ends: EndsBy::Curve,
            method: Method::Steady,
        };
        let i = inverse::spline_inverse_by(o, b, y, knots);
        if is_by_end(i) {
            return said(b, span, y, knots, i);
        }
        return found(span, i);
    }
    Err(Miss::Refused(table_span::without_span(b, knots.len())))
}
