// The exports of conversion: each function has the contract of the export that calls it.
#![tactic(auto)]

ghost use Rattle.std.specs.Prelude.{◌≡◌, length};
ghost use Rattle.convert.specs.Conversion.{converted_of, converted_segment_of};
ghost use Rattle.convert.specs.Buffer.{answer_of, buffer_of};
ghost use Rattle.convert_strict.specs.Strict.{strict_of};
ghost use Rattle.exports_reply.specs.Replies.{chosen_of, no_basis, chosen, converted_reply, length_left};

// One segment's conversion, into the first four places of out.
pub fn convert_segment(from: u8, to: u8, cv: &[f64], out: &mut [f64]) -> u32
    ensures answer { result ≡ chosen (chosen_of from) no_basis
        (λ f. chosen (chosen_of to) no_basis
        (λ t. converted_reply (answer_of (converted_segment_of f t cv.now (length out.old))))) }
    ensures buffer { out.new ≡ chosen (chosen_of from) out.old
        (λ f. chosen (chosen_of to) out.old
        (λ t. buffer_of (converted_segment_of f t cv.now (length out.old)) out.old)) }
{
    let c = exports_reply::basis_of(from);
    let Some(f) = c else {
        return exports_reply::UNKNOWN;
    };
    let d = exports_reply::basis_of(to);
    let Some(t) = d else {
        return exports_reply::UNKNOWN;
    };
    exports_reply::conversion_reply(convert::convert_segment(f, t, cv, out))
}

// A curve's conversion, into the first places of out.
pub fn convert_spline(from: u8, to: u8, knots: &[f64], out: &mut [f64], written: &mut usize) -> u32
    ensures answer { result ≡ chosen (chosen_of from) no_basis
        (λ f. chosen (chosen_of to) no_basis
        (λ t. converted_reply (answer_of (converted_of f t knots.now (length out.old))))) }
    ensures length { written.new ≡ chosen (chosen_of from) written.old
        (λ f. chosen (chosen_of to) written.old
        (λ t. length_left (answer_of (converted_of f t knots.now (length out.old))) written.old)) }
    ensures buffer { out.new ≡ chosen (chosen_of from) out.old
        (λ f. chosen (chosen_of to) out.old
        (λ t. buffer_of (converted_of f t knots.now (length out.old)) out.old)) }
{
    let c = exports_reply::basis_of(from);
    let Some(f) = c else {
        return exports_reply::UNKNOWN;
    };
    let d = exports_reply::basis_of(to);
    let Some(t) = d else {
        return exports_reply::UNKNOWN;
    };
    exports_reply::length_told(convert::convert_spline(f, t, knots, out), written)
}

// A curve's conversion, into the first places of out, unless a seam loses more than the allowance.
pub fn convert_spline_strict(
    from: u8,
    to: u8,
    knots: &[f64],
    allowance: f64,
    out: &mut [f64],
    written: &mut usize,
) -> u32
    ensures answer { result ≡ chosen (chosen_of from) no_basis
        (λ f. chosen (chosen_of to) no_basis
        (λ t. converted_reply (answer_of (strict_of f t knots.now allowance (length out.old))))) }
    ensures length { written.new ≡ chosen (chosen_of from) written.old
        (λ f. chosen (chosen_of to) written.old
        (λ t. length_left (answer_of (strict_of f t knots.now allowance (length out.old)))
        written.old)) }
    ensures buffer { out.new ≡ chosen (chosen_of from) out.old
        (λ f. chosen (chosen_of to) out.old
        (λ t. buffer_of (strict_of f t knots.now allowance (length out.old)) out.old)) }
{
    let c = exports_reply::basis_of(from);
    let Some(f) = c else {
        return exports_reply::UNKNOWN;
    };
    let d = exports_reply::basis_of(to);
    let Some(t) = d else {
        return exports_reply::UNKNOWN;
    };
    exports_reply::length_told(
        convert_strict::convert_spline_strict(f, t, knots, allowance, out),
        written,
    )
}
