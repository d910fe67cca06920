// What C and Rust call: a table with a span, its basis by number and its span in seconds, 0 for none.
ghost use Rattle.std.specs.Prelude.{◌≡◌, length};
ghost use Rattle.convert.specs.Buffer.{answer_of, buffer_of};
ghost use Rattle.inverse_order.specs.declared.EndsBy.TheVariants.{Knots};
ghost use Rattle.inverse_segment.specs.Answer.{default_limit, default_precision};
ghost use Rattle.inverse_segment.specs.declared.Method.TheVariants.{AsCrate};
ghost use Rattle.table.specs.Calls.{table_spline_of, table_inverse_by, table_converted_of, table_strict_of, handed_of};
ghost use Rattle.exports_reply.specs.Replies.{chosen_of, no_basis, chosen, evaluated_reply, value_left};
ghost use Rattle.exports_reply.specs.Options.{chosen_by};
ghost use Rattle.exports_table.specs.Tables.{
  table_of,
  timed_reply,
  timed_place,
  timed_whole,
  handed_reply,
  handed_span,
  handed_length,
};

// A curve's value; with a good span it is the curve's own export that tells it.
#[unsafe(no_mangle)]
pub extern "C" fn simmerstoat_table_spline(
    basis: u8,
    span: u32,
    x: f64,
    knots: &[f64],
    value: &mut f64,
) -> u32
    ensures answer { result ≡ chosen (chosen_of basis) no_basis
        (λ b. evaluated_reply (table_spline_of (table_of span b) x knots.now)) }
    ensures value { value.new ≡ chosen (chosen_of basis) value.old
        (λ b. value_left (table_spline_of (table_of span b) x knots.now) value.old) }
{
    if table_span::is_span(span) {
        return crate::simmerstoat_spline(basis, x, knots, value);
    }
    let c = exports_reply::basis_of(basis);
    let Some(b) = c else {
        return exports_reply::UNKNOWN;
    };
    error::reply(table_span::without_span(b, knots.len()))
}

// A curve's inversion with the defaults.
#[unsafe(no_mangle)]
pub extern "C" fn simmerstoat_table_spline_inverse(
    basis: u8,
    span: u32,
    y: f64,
    knots: &[f64],
    check: bool,
    place: &mut [f64; 4],
    whole: &mut [usize; 4],
) -> u32
    ensures answer { result ≡ chosen (chosen_of basis) no_basis
        (λ b. timed_reply (table_inverse_by Knots AsCrate (table_of span b) y knots.now check default_limit default_precision)) }
    ensures place { place.new ≡ chosen (chosen_of basis) place.old
        (λ b. timed_place (table_inverse_by Knots AsCrate (table_of span b) y knots.now check default_limit default_precision)
        place.old) }
    ensures whole { whole.new ≡ chosen (chosen_of basis) whole.old
        (λ b. timed_whole (table_inverse_by Knots AsCrate (table_of span b) y knots.now check default_limit default_precision)
        whole.old) }
{
    exports_table::table_spline_inverse(basis, span, y, knots, check, place, whole)
}

// A curve's inversion by the caller's options.
#[unsafe(no_mangle)]
pub extern "C" fn simmerstoat_table_spline_inverse_by(
    basis: u8,
    span: u32,
    y: f64,
    knots: &[f64],
    check: bool,
    limit: u16,
    precision: f64,
    ends: u8,
    method: u8,
    place: &mut [f64; 4],
    whole: &mut [usize; 4],
) -> u32
    ensures answer { result ≡ chosen_by basis ends method no_basis
        (λ b e m. timed_reply (table_inverse_by e m (table_of span b) y knots.now check limit precision)) }
    ensures place { place.new ≡ chosen_by basis ends method place.old
        (λ b e m. timed_place (table_inverse_by e m (table_of span b) y knots.now check limit precision) place.old) }
    ensures whole { whole.new ≡ chosen_by basis ends method whole.old
        (λ b e m. timed_whole (table_inverse_by e m (table_of span b) y knots.now check limit precision) whole.old) }
{
    exports_table::table_spline_inverse_by(
        basis, span, y, knots, check, limit, precision, ends, method, place, whole,
    )
}

// A curve's conversion, into the first places of out; the new table is over `to` and has the span that is handed on.
#[unsafe(no_mangle)]
pub extern "C" fn simmerstoat_table_convert_spline(
    from: u8,
    span: u32,
    to: u8,
    knots: &[f64],
    out: &mut [f64],
    handed: &mut u32,
    written: &mut usize,
) -> u32
    ensures answer { result ≡ chosen (chosen_of from) no_basis
        (λ f. chosen (chosen_of to) no_basis
        (λ t. handed_reply (handed_of span t
        (answer_of (table_converted_of (table_of span f) t knots.now (length out.old)))))) }
    ensures span { handed.new ≡ chosen (chosen_of from) handed.old
        (λ f. chosen (chosen_of to) handed.old
        (λ t. handed_span (handed_of span t
        (answer_of (table_converted_of (table_of span f) t knots.now (length out.old))))
        handed.old)) }
    ensures length { written.new ≡ chosen (chosen_of from) written.old
        (λ f. chosen (chosen_of to) written.old
        (λ t. handed_length (handed_of span t
        (answer_of (table_converted_of (table_of span f) t knots.now (length out.old))))
        written.old)) }
    ensures buffer { out.new ≡ chosen (chosen_of from) out.old
        (λ f. chosen (chosen_of to) out.old
        (λ t. buffer_of (table_converted_of (table_of span f) t knots.now (length out.old)) out.old)) }
{
    exports_table::table_convert_spline(from, span, to, knots, out, handed, written)
}

// The same, unless a seam loses more than the allowance.
#[unsafe(no_mangle)]
pub extern "C" fn simmerstoat_table_convert_spline_strict(
    from: u8,
    span: u32,
    to: u8,
    knots: &[f64],
    allowance: f64,
    out: &mut [f64],
    handed: &mut u32,
    written: &mut usize,
) -> u32
    ensures answer { result ≡ chosen (chosen_of from) no_basis
        (λ f. chosen (chosen_of to) no_basis
        (λ t. handed_reply (handed_of span t
        (answer_of (table_strict_of (table_of span f) t knots.now allowance (length out.old)))))) }
    ensures span { handed.new ≡ chosen (chosen_of from) handed.old
        (λ f. chosen (chosen_of to) handed.old
        (λ t. handed_span (handed_of span t
        (answer_of (table_strict_of (table_of span f) t knots.now allowance (length out.old))))
        handed.old)) }
    ensures length { written.new ≡ chosen (chosen_of from) written.old
        (λ f. chosen (chosen_of to) written.old
        (λ t. handed_length (handed_of span t
        (answer_of (table_strict_of (table_of span f) t knots.now allowance (length out.old))))
        written.old)) }
    ensures buffer { out.new ≡ chosen (chosen_of from) out.old
        (λ f. chosen (chosen_of to) out.old
        (λ t. buffer_of (table_strict_of (table_of span f) t knots.now allowance (length out.old))
        out.old)) }
{
    exports_table::table_convert_spline_strict(
        from, span, to, knots, allowance, out, handed, written,
    )
}
