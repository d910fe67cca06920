// The exports of the calls on a table with a span: each function has the contract of the export that calls it. The basis comes by its
// number, the span in seconds, 0 for none.
#![tactic(auto)]

ghost use Rattle.std.specs.Prelude.{◌≡◌, length};
ghost use Rattle.convert.specs.Buffer.{answer_of, buffer_of};
ghost use Rattle.inverse_order.specs.declared.EndsBy.TheVariants.{Knots};
ghost use Rattle.inverse_segment.specs.Answer.{default_limit, default_precision};
ghost use Rattle.inverse_segment.specs.declared.Method.TheVariants.{AsCrate};
ghost use Rattle.table.specs.Calls.{table_inverse_by, table_steady_of, table_converted_of, table_strict_of, handed_of};
ghost use Rattle.exports_reply.specs.Replies.{chosen_of, no_basis, chosen};
ghost use Rattle.exports_reply.specs.Options.{chosen_by};
ghost use Rattle.exports_table.specs.Tables.{
  table_of,
  timed_reply,
  timed_place,
  timed_whole,
  handed_reply,
  handed_span,
  handed_length,
};

use error::Refusal;
use inverse::Options;
use inverse_segment::{Miss, Place};
use table_span::Table;

// A place leaves what it leaves without a span, and its second; refusal 11 its count.
pub fn timed_told(
    a: Result<(Place, u32), Miss>,
    place: &mut [f64; 4],
    whole: &mut [usize; 4],
) -> u32
    ensures answer { result ≡ timed_reply a }
    ensures place { place.new ≡ timed_place a place.old }
    ensures whole { whole.new ≡ timed_whole a whole.old }
{
    match a {
        Ok((p, s)) => {
            *place = [p.parameter, p.local, p.lower, p.upper];
            let g = p.ground;
            *whole = [
                exports_reply::ground_number(g),
                p.segment,
                p.count as usize,
                s as usize,
            ];
            0
        }
        Err(Miss::OffCurve(n)) => {
            whole[2] = n;
            error::reply(Refusal::OffCurve)
        }
        Err(Miss::Refused(r)) => error::reply(r),
    }
}

// The answer of a conversion that hands the span on, into what C lent for it.
fn handed_told(a: Result<(Table, usize), Refusal>, handed: &mut u32, written: &mut usize) -> u32
    ensures answer { result ≡ handed_reply a }
    ensures handed { handed.new ≡ handed_span a handed.old }
    ensures written { written.new ≡ handed_length a written.old }
{
    match a {
        Ok((t, n)) => {
            *handed = t.span;
            *written = n;
            0
        }
        Err(r) => error::reply(r),
    }
}

// A curve's inversion with the defaults.
pub fn table_spline_inverse(
    basis: u8,
    span: u32,
    y: f64,
    knots: &[f64],
    check: bool,
    place: &mut [f64; 4],
    whole: &mut [usize; 4],
) -> u32
    ensures answer { result ≡ chosen (chosen_of basis) no_basis
        (λ b. timed_reply (table_inverse_by Knots AsCrate (table_of span b) y knots.now check default_limit default_precision)) }
    ensures place { place.new ≡ chosen (chosen_of basis) place.old
        (λ b. timed_place (table_inverse_by Knots AsCrate (table_of span b) y knots.now check default_limit default_precision)
        place.old) }
    ensures whole { whole.new ≡ chosen (chosen_of basis) whole.old
        (λ b. timed_whole (table_inverse_by Knots AsCrate (table_of span b) y knots.now check default_limit default_precision)
        whole.old) }
{
    let c = exports_reply::basis_of(basis);
    let Some(b) = c else {
        return exports_reply::UNKNOWN;
    };
    let t = Table {
        basis: b,
        span: span,
    };
    timed_told(
        table::table_spline_inverse(t, y, knots, check),
        place,
        whole,
    )
}

// A curve's inversion by the caller's options.
pub fn table_spline_inverse_by(
    basis: u8,
    span: u32,
    y: f64,
    knots: &[f64],
    check: bool,
    limit: u16,
    precision: f64,
    ends: u8,
    method: u8,
    place: &mut [f64; 4],
    whole: &mut [usize; 4],
) -> u32
    ensures answer { result ≡ chosen_by basis ends method no_basis
        (λ b e m. timed_reply (table_inverse_by e m (table_of span b) y knots.now check limit precision)) }
    ensures place { place.new ≡ chosen_by basis ends method place.old
        (λ b e m. timed_place (table_inverse_by e m (table_of span b) y knots.now check limit precision) place.old) }
    ensures whole { whole.new ≡ chosen_by basis ends method whole.old
        (λ b e m. timed_whole (table_inverse_by e m (table_of span b) y knots.now check limit precision) whole.old) }
{
    let c = exports_reply::basis_of(basis);
    let Some(b) = c else {
        return exports_reply::UNKNOWN;
    };
    let w = exports_reply::options::way_of(ends, method);
    let Some((e, m)) = w else {
        return exports_reply::UNKNOWN;
    };
    let o = Options {
        check: check,
        limit: limit,
        precision: precision,
        ends: e,
        method: m,
    };
    let t = Table {
        basis: b,
        span: span,
    };
    timed_told(table::table_spline_inverse_by(o, t, y, knots), place, whole)
}

// A curve's inversion, of a table with a span.
pub fn table_spline_inverse_steady(
    basis: u8,
    span: u32,
    y: f64,
    knots: &[f64],
    check: bool,
    place: &mut [f64; 4],
    whole: &mut [usize; 4],
) -> u32
    ensures answer { result ≡ chosen (chosen_of basis) no_basis
        (λ b. timed_reply (table_steady_of (table_of span b) y knots.now check)) }
    ensures place { place.new ≡ chosen (chosen_of basis) place.old
        (λ b. timed_place (table_steady_of (table_of span b) y knots.now check) place.old) }
    ensures whole { whole.new ≡ chosen (chosen_of basis) whole.old
        (λ b. timed_whole (table_steady_of (table_of span b) y knots.now check) whole.old) }
{
    let c = exports_reply::basis_of(basis);
    let Some(b) = c else {
        return exports_reply::UNKNOWN;
    };
    let t = Table {
        basis: b,
        span: span,
    };
    timed_told(
        table::table_spline_inverse_steady(t, y, knots, check),
        place,
        whole,
    )
}

// A curve's conversion, into the first places of out; the new table is over `to` and has the span that is handed on.
pub fn table_convert_spline(
    from: u8,
    span: u32,
    to: u8,
    knots: &[f64],
    out: &mut [f64],
    handed: &mut u32,
    written: &mut usize,
) -> u32
    ensures answer { result ≡ chosen (chosen_of from) no_basis
        (λ f. chosen (chosen_of to) no_basis
        (λ t. handed_reply (handed_of span t
        (answer_of (table_converted_of (table_of span f) t knots.now (length out.old)))))) }
    ensures span { handed.new ≡ chosen (chosen_of from) handed.old
        (λ f. chosen (chosen_of to) handed.old
        (λ t. handed_span (handed_of span t
        (answer_of (table_converted_of (table_of span f) t knots.now (length out.old))))
        handed.old)) }
    ensures length { written.new ≡ chosen (chosen_of from) written.old
        (λ f. chosen (chosen_of to) written.old
        (λ t. handed_length (handed_of span t
        (answer_of (table_converted_of (table_of span f) t knots.now (length out.old))))
        written.old)) }
    ensures buffer { out.new ≡ chosen (chosen_of from) out.old
        (λ f. chosen (chosen_of to) out.old
        (λ t. buffer_of (table_converted_of (table_of span f) t knots.now (length out.old)) out.old)) }
{
    let c = exports_reply::basis_of(from);
    let Some(f) = c else {
        return exports_reply::UNKNOWN;
    };
    let d = exports_reply::basis_of(to);
    let Some(t) = d else {
        return exports_reply::UNKNOWN;
    };
    let old = Table {
        basis: f,
        span: span,
    };
    handed_told(
        table::table_convert_spline(old, t, knots, out),
        handed,
        written,
    )
}

// The same, unless a seam loses more than the allowance.
pub fn table_convert_spline_strict(
    from: u8,
    span: u32,
    to: u8,
    knots: &[f64],
    allowance: f64,
    out: &mut [f64],
    handed: &mut u32,
    written: &mut usize,
) -> u32
    ensures answer { result ≡ chosen (chosen_of from) no_basis
        (λ f. chosen (chosen_of to) no_basis
        (λ t. handed_reply (handed_of span t
        (answer_of (table_strict_of (table_of span f) t knots.now allowance (length out.old)))))) }
    ensures span { handed.new ≡ chosen (chosen_of from) handed.old
        (λ f. chosen (chosen_of to) handed.old
        (λ t. handed_span (handed_of span t
        (answer_of (table_strict_of (table_of span f) t knots.now allowance (length out.old))))
        handed.old)) }
    ensures length { written.new ≡ chosen (chosen_of from) written.old
        (λ f. chosen (chosen_of to) written.old
        (λ t. handed_length (handed_of span t
        (answer_of (table_strict_of (table_of span f) t knots.now allowance (length out.old))))
        written.old)) }
    ensures buffer { out.new ≡ chosen (chosen_of from) out.old
        (λ f. chosen (chosen_of to) out.old
        (λ t. buffer_of (table_strict_of (table_of span f) t knots.now allowance (length out.old))
        out.old)) }
{
    let c = exports_reply::basis_of(from);
    let Some(f) = c else {
        return exports_reply::UNKNOWN;
    };
    let d = exports_reply::basis_of(to);
    let Some(t) = d else {
        return exports_reply::UNKNOWN;
    };
    let old = Table {
        basis: f,
        span: span,
    };
    handed_told(
        table::table_convert_spline_strict(old, t, knots, allowance, out),
        handed,
        written,
    )
}
