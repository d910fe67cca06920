// What C and Rust call: strict conversion.
ghost use Rattle.std.specs.Prelude.{◌≡◌, length};
ghost use Rattle.convert.specs.Buffer.{answer_of, buffer_of};
ghost use Rattle.convert_strict.specs.Strict.{strict_of};
ghost use Rattle.exports_reply.specs.Replies.{chosen_of, no_basis, chosen, converted_reply, length_left};

// A curve's conversion, into the first places of out, unless a seam loses more than the allowance.
#[unsafe(no_mangle)]
pub extern "C" fn simmerstoat_convert_spline_strict(
    from: u8,
    to: u8,
    knots: &[f64],
    allowance: f64,
    out: &mut [f64],
    written: &mut usize,
) -> u32
    ensures answer { result ≡ chosen (chosen_of from) no_basis
        (λ f. chosen (chosen_of to) no_basis
        (λ t. converted_reply (answer_of (strict_of f t knots.now allowance (length out.old))))) }
    ensures length { written.new ≡ chosen (chosen_of from) written.old
        (λ f. chosen (chosen_of to) written.old
        (λ t. length_left (answer_of (strict_of f t knots.now allowance (length out.old)))
        written.old)) }
    ensures buffer { out.new ≡ chosen (chosen_of from) out.old
        (λ f. chosen (chosen_of to) out.old
        (λ t. buffer_of (strict_of f t knots.now allowance (length out.old)) out.old)) }
{
    simmerstoat::seams::simmerstoat_convert_spline_strict(from, to, knots, allowance, out, written)
}
