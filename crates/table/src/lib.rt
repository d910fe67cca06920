// The calls on a table of depths with its span.
#![tactic(auto)]

ghost use Rattle.std.specs.Prelude.{◌≡◌, true, length};
ghost use Rattle.convert.specs.Buffer.{answer_of, buffer_of};
ghost use Rattle.inverse_order.specs.declared.EndsBy.TheVariants.{Knots};
ghost use Rattle.inverse_segment.specs.Answer.{default_limit, default_precision};
ghost use Rattle.inverse_segment.specs.declared.Method.TheVariants.{AsCrate};
ghost use Rattle.table_span.specs.Second.{good_span};
ghost use Rattle.table.specs.Calls.{timed_of, table_spline_of, table_inverse_by, table_steady_of, table_converted_of, table_strict_of, handed_of};

use basis::Basis;
use error::Refusal;
use inverse::Options;
use inverse_order::EndsBy;
use inverse_segment::{DEFAULT_LIMIT, DEFAULT_PRECISION, Method, Miss, Place, STEADY_LIMIT};
use table_span::Table;

// The curve at x.
pub fn table_spline(t: Table, x: f64, knots: &[f64]) -> Result<f64, Refusal>
    ensures { result ≡ table_spline_of t x knots.now }
{
    let b = t.basis;
    let span = t.span;
    if table_span::is_span(span) {
        return spline::spline(b, x, knots);
    }
    Err(table_span::without_span(b, knots.len()))
}

// An inversion's answer with the second of its place.
fn with_second(span: u32, i: Result<Place, Miss>) -> Result<(Place, u32), Miss>
    requires { good_span span ≡ true }
    ensures { result ≡ timed_of span i }
{
    let p = i?;
    Ok((p, table_span::second(span, p.parameter)))
}

// The place of y and its second, by these options.
pub fn table_spline_inverse_by(
    o: Options,
    t: Table,
    y: f64,
    knots: &[f64],
) -> Result<(Place, u32), Miss>
    ensures { result ≡ table_inverse_by o.ends o.method t y knots.now o.check o.limit o.precision }
{
    let b = t.basis;
    let span = t.span;
    if table_span::is_span(span) {
        return with_second(span, inverse::spline_inverse_by(o, b, y, knots));
    }
    Err(Miss::Refused(table_span::without_span(b, knots.len())))
}

// As the crate inverts, with limit 32 and precision 1e-10.
pub fn table_spline_inverse(
    t: Table,
    y: f64,
    knots: &[f64],
    check: bool,
) -> Result<(Place, u32), Miss>
    ensures { result ≡ table_inverse_by Knots AsCrate t y knots.now check default_limit default_precision }
{
    let o = Options {
        check: check,
        limit: DEFAULT_LIMIT,
        precision: DEFAULT_PRECISION,
        ends: EndsBy::Knots,
        method: Method::AsCrate,
    };
    table_spline_inverse_by(o, t, y, knots)
}

// By the knots and by the steady method, with limit 64 and precision 1e-10: never spent.
pub fn table_spline_inverse_steady(
    t: Table,
    y: f64,
    knots: &[f64],
    check: bool,
) -> Result<(Place, u32), Miss>
    ensures { result ≡ table_steady_of t y knots.now check }
{
    let o = Options {
        check: check,
        limit: STEADY_LIMIT,
        precision: DEFAULT_PRECISION,
        ends: EndsBy::Knots,
        method: Method::Steady,
    };
    table_spline_inverse_by(o, t, y, knots)
}

// A conversion's answer as a table of the new basis with the old span.
fn handed_on(span: u32, to: Basis, c: Result<usize, Refusal>) -> Result<(Table, usize), Refusal>
    ensures { result ≡ handed_of span to c }
{
    match c {
        Err(r) => Err(r),
        Ok(n) => Ok((
            Table {
                basis: to,
                span: span,
            },
            n,
        )),
    }
}

// The curve over another basis, into the lent buffer; the new table has the old one's span.
pub fn table_convert_spline(
    t: Table,
    to: Basis,
    knots: &[f64],
    out: &mut [f64],
) -> Result<(Table, usize), Refusal>
    ensures answer { result ≡ handed_of t.span to
        (answer_of (table_converted_of t to knots.now (length out.old))) }
    ensures buffer { out.new ≡ buffer_of (table_converted_of t to knots.now (length out.old))
        out.old }
{
    let b = t.basis;
    let span = t.span;
    if table_span::is_span(span) {
        return handed_on(span, to, convert::convert_spline(b, to, knots, out));
    }
    Err(table_span::without_span(b, knots.len()))
}

// The same, unless a seam loses more than the allowance.
pub fn table_convert_spline_strict(
    t: Table,
    to: Basis,
    knots: &[f64],
    allowance: f64,
    out: &mut [f64],
) -> Result<(Table, usize), Refusal>
    ensures answer { result ≡ handed_of t.span to
        (answer_of (table_strict_of t to knots.now allowance (length out.old))) }
    ensures buffer { out.new ≡ buffer_of (table_strict_of t to knots.now allowance (length out.old))
        out.old }
{
    let b = t.basis;
    let span = t.span;
    if table_span::is_span(span) {
        return handed_on(
            span,
            to,
            convert_strict::convert_spline_strict(b, to, knots, allowance, out),
        );
    }
    Err(table_span::without_span(b, knots.len()))
}
