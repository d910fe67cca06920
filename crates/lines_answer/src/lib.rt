// What each record of a listing gets for a reply, and the curve after it.
#![tactic(auto)]

ghost use Rattle.std.specs.Prelude.{◌≡◌, List, ◌≤◌, Float, length, take};
ghost use Rattle.spline.specs.Evaluation.{spline_of};
ghost use Rattle.convert.specs.Conversion.{converted_of};
ghost use Rattle.lines_record.specs.declared.Record.TheVariants.{Span, Knot};
ghost use Rattle.error.specs.declared.Refusal.TheVariants.{BadLine};
ghost use Rattle.lines_reply.specs.declared.LineReply.TheVariants.{Refused};
ghost use Rattle.lines_reply.specs.Contract.{reply_of, lent_of};
ghost use Rattle.lines_answer.specs.Answer.{places, none, on, value_reply, found_of, place_reply, curve_reply};
ghost use Rattle.lines_answer.specs.Contract.{curve_of, count_of, Answers};

use basis::Basis;
use error::Refusal;
use inverse::Options;
use inverse_order::EndsBy;
use inverse_segment::{DEFAULT_LIMIT, DEFAULT_PRECISION, Method, Miss};
use lines_record::Record;
use lines_reply::LineReply;
use table_span::Table;

// The curve that is held: none before the first `curve`, then a basis with a span, by which ends it is inverted, and so many knots.
#[derive(Clone, Copy)]
pub enum Session {
    Nothing,
    Curve(Table, EndsBy, usize),
}

#[derive(Clone, Copy)]
pub struct SessionReply {
    pub held: Session,
    pub told: LineReply,
}

// The value at x.
pub fn value_at(b: Basis, x: f64, knots: &[f64]) -> LineReply
    ensures reply { (l : List Float) → reply_of result l ≡ value_reply (spline_of b x knots.now) }
    ensures lent { lent_of result ≡ 0 }
{
    let e = spline::spline(b, x, knots);
    match e {
        Ok(v) => LineReply::Value(v),
        Err(r) => LineReply::Refused(r),
    }
}

// The place of y, with the order check.
fn place_of(t: Table, m: EndsBy, y: f64, knots: &[f64]) -> LineReply
    ensures reply { (l : List Float) → reply_of result l ≡ place_reply t.span (found_of m t.basis y knots.now) }
    ensures lent { lent_of result ≡ 0 }
{
    let b = t.basis;
    let o = Options {
        check: true,
        limit: DEFAULT_LIMIT,
        precision: DEFAULT_PRECISION,
        ends: m,
        method: Method::AsCrate,
    };
    let i = inverse::spline_inverse_by(o, b, y, knots);
    match i {
        Err(Miss::Refused(r)) => LineReply::Refused(r),
        Err(Miss::OffCurve(_)) => LineReply::Refused(Refusal::OffCurve),
        Ok(p) => {
            let ground = p.ground;
            let s = table_span::seconds_of(t.span, p.parameter);
            LineReply::Place(p.parameter, ground, p.count, s)
        }
    }
}

// The curve over another basis, into the lent places.
fn converted_to(t: Table, c: Basis, knots: &[f64], converted: &mut [f64]) -> LineReply
    requires { length converted.old ≡ places }
    ensures reply { reply_of result converted.new ≡ curve_reply t.span c (converted_of t.basis c knots.now places) }
    ensures lent { lent_of result ≤ places }
{
    let b = t.basis;
    let i = convert::convert_spline(b, c, knots, &mut *converted);
    match i {
        Ok(n) => LineReply::Curve(
            Table {
                basis: c,
                span: t.span,
            },
            n,
        ),
        Err(r) => LineReply::Refused(r),
    }
}

// The answer that says 12 and leaves all as it is.
fn bad_line(h: Session) -> SessionReply
    ensures session { result.held ≡ h }
    ensures reply { result.told ≡ Refused BadLine }
{
    SessionReply {
        held: h,
        told: LineReply::Refused(Refusal::BadLine),
    }
}

// A record before the first curve.
pub fn first(r: Record, table: &[f64], converted: &[f64]) -> SessionReply
    ensures { Answers none r result table.now converted.now }
{
    match r {
        Record::Curve(b) => SessionReply {
            held: Session::Curve(Table { basis: b, span: 0 }, EndsBy::Knots, 0),
            told: LineReply::Nothing,
        },
        Record::Span(_) => bad_line(Session::Nothing),
        Record::Knot(_) => bad_line(Session::Nothing),
        Record::Ends(_) => bad_line(Session::Nothing),
        Record::At(_) => bad_line(Session::Nothing),
        Record::Find(_) => bad_line(Session::Nothing),
        Record::Turn(_) => bad_line(Session::Nothing),
        Record::Bad => bad_line(Session::Nothing),
    }
}

// A knot, where n stand in the table: into the next place, if there is one.
pub fn add(t: Table, m: EndsBy, n: usize, x: f64, table: &mut [f64]) -> SessionReply
    requires count { n ≤ places }
    requires table { length table.old ≡ places }
    ensures { (l : List Float) → Answers (on t m (take n table.old)) (Knot x) result table.new l }
{
    match keeper::keep(x, n, table) {
        Some(count) => SessionReply {
            held: Session::Curve(t, m, count),
            told: LineReply::Nothing,
        },
        None => SessionReply {
            held: Session::Curve(t, m, n),
            told: LineReply::Refused(Refusal::TooMany),
        },
    }
}

// A span: in place of the one before, if it is good.
pub fn spanned(
    t: Table,
    m: EndsBy,
    n: usize,
    s: u32,
    table: &[f64],
    converted: &[f64],
) -> SessionReply
    requires { n ≤ places }
    ensures { Answers (on t m (take n table.now)) (Span s) result table.now converted.now }
{
    if table_span::is_span(s) {
        let b = t.basis;
        return SessionReply {
            held: Session::Curve(Table { basis: b, span: s }, m, n),
            told: LineReply::Nothing,
        };
    }
    SessionReply {
        held: Session::Curve(t, m, n),
        told: LineReply::Refused(Refusal::BadSpan),
    }
}

// A record after the first curve, which has n knots.
fn later(
    t: Table,
    m: EndsBy,
    n: usize,
    r: Record,
    table: &mut [f64],
    converted: &mut [f64],
) -> SessionReply
    requires count { n ≤ places }
    requires table { length table.old ≡ places }
    requires converted { length converted.old ≡ places }
    ensures { Answers (on t m (take n table.old)) r result table.new converted.new }
{
    let b = t.basis;
    let same = Session::Curve(t, m, n);
    match r {
        Record::Curve(c) => {
            let cleared = Table { basis: c, span: 0 };
            SessionReply {
                held: Session::Curve(cleared, m, 0),
                told: LineReply::Nothing,
            }
        }
        Record::Span(s) => spanned(t, m, n, s, &table[..], &converted[..]),
        Record::Knot(x) => add(t, m, n, x, table),
        Record::Ends(k) => SessionReply {
            held: Session::Curve(t, k, n),
            told: LineReply::Nothing,
        },
        Record::At(x) => SessionReply {
            held: same,
            told: value_at(b, x, &table[0..n]),
        },
        Record::Find(y) => SessionReply {
            held: same,
            told: place_of(t, m, y, &table[0..n]),
        },
        Record::Turn(c) => SessionReply {
            held: same,
            told: converted_to(t, c, &table[0..n], converted),
        },
        Record::Bad => bad_line(same),
    }
}

// The reply to a record, and the curve after it; a converted curve stands in `converted`.
pub fn answer(h: Session, r: Record, table: &mut [f64], converted: &mut [f64]) -> SessionReply
    requires held { count_of h ≤ places }
    requires table { length table.old ≡ places }
    requires converted { length converted.old ≡ places }
    ensures { Answers (curve_of h table.old) r result table.new converted.new }
{
    match h {
        Session::Nothing => first(r, &table[..], &converted[..]),
        Session::Curve(t, m, n) => later(t, m, n, r, table, converted),
    }
}
