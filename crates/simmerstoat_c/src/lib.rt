// The archive that C and Rust link: every function of the library by a plain name, with a basis by its number.
// A reply is 0, or a refusal's number in the lowest eight bits with its place above them. Each export is one call of the function of
// `simmerstoat` of that name, under the same contract.
#![tactic(auto)]

ghost use Rattle.std.specs.Prelude.{◌≡◌, cond, length};
ghost use Rattle.basis.specs.Basis.{length_ok};
ghost use Rattle.spline.specs.Evaluation.{spline_of, spline_segment_of};
ghost use Rattle.inverse_segment.specs.Answer.{inverse_segment_of, default_limit, default_precision};
ghost use Rattle.inverse.specs.Inverse.{inverse_of};
ghost use Rattle.convert.specs.Conversion.{converted_of, converted_segment_of};
ghost use Rattle.convert.specs.Buffer.{answer_of, buffer_of};
ghost use Rattle.exports_reply.specs.Replies.{
  chosen_of,
  no_basis,
  chosen,
  evaluated_reply,
  value_left,
  inverted_reply,
  place_left,
  whole_left,
  converted_reply,
  length_left,
};

pub mod claims;
pub mod hours;
pub mod jobs;
pub mod options;
pub mod seams;
pub mod spans;
pub mod steady;
pub mod version;

// 1 or 0; 255 for a number that is no basis, here and in every other call.
#[unsafe(no_mangle)]
pub extern "C" fn simmerstoat_is_len_ok(basis: u8, n: usize) -> u8
    ensures { result ≡ chosen (chosen_of basis) no_basis (λ b. cond (length_ok b n) 1 0) }
{
    simmerstoat::simmerstoat_is_len_ok(basis, n)
}

// A curve's value.
#[unsafe(no_mangle)]
pub extern "C" fn simmerstoat_spline(basis: u8, x: f64, knots: &[f64], value: &mut f64) -> u32
    ensures answer { result ≡ chosen (chosen_of basis) no_basis (λ b. evaluated_reply (spline_of b x knots.now)) }
    ensures value { value.new ≡ chosen (chosen_of basis) value.old
        (λ b. value_left (spline_of b x knots.now) value.old) }
{
    simmerstoat::simmerstoat_spline(basis, x, knots, value)
}

// One segment's value.
#[unsafe(no_mangle)]
pub extern "C" fn simmerstoat_spline_segment(basis: u8, x: f64, cv: &[f64], value: &mut f64) -> u32
    ensures answer { result ≡ chosen (chosen_of basis) no_basis (λ b. evaluated_reply (spline_segment_of b x cv.now)) }
    ensures value { value.new ≡ chosen (chosen_of basis) value.old
        (λ b. value_left (spline_segment_of b x cv.now) value.old) }
{
    simmerstoat::simmerstoat_spline_segment(basis, x, cv, value)
}

// A curve's inversion with the defaults.
#[unsafe(no_mangle)]
pub extern "C" fn simmerstoat_spline_inverse(
    basis: u8,
    y: f64,
    knots: &[f64],
    check: bool,
    place: &mut [f64; 4],
    whole: &mut [usize; 3],
) -> u32
    ensures answer { result ≡ chosen (chosen_of basis) no_basis
        (λ b. inverted_reply (inverse_of b y knots.now check default_limit default_precision)) }
    ensures place { place.new ≡ chosen (chosen_of basis) place.old
        (λ b. place_left (inverse_of b y knots.now check default_limit default_precision) place.old) }
    ensures whole { whole.new ≡ chosen (chosen_of basis) whole.old
        (λ b. whole_left (inverse_of b y knots.now check default_limit default_precision) whole.old) }
{
    simmerstoat::simmerstoat_spline_inverse(basis, y, knots, check, place, whole)
}

// A curve's inversion with a limit and a precision.
#[unsafe(no_mangle)]
pub extern "C" fn simmerstoat_spline_inverse_with(
    basis: u8,
    y: f64,
    knots: &[f64],
    check: bool,
    limit: u16,
    precision: f64,
    place: &mut [f64; 4],
    whole: &mut [usize; 3],
) -> u32
    ensures answer { result ≡ chosen (chosen_of basis) no_basis
        (λ b. inverted_reply (inverse_of b y knots.now check limit precision)) }
    ensures place { place.new ≡ chosen (chosen_of basis) place.old
        (λ b. place_left (inverse_of b y knots.now check limit precision) place.old) }
    ensures whole { whole.new ≡ chosen (chosen_of basis) whole.old
        (λ b. whole_left (inverse_of b y knots.now check limit precision) whole.old) }
{
    simmerstoat::simmerstoat_spline_inverse_with(
        basis, y, knots, check, limit, precision, place, whole,
    )
}

// One segment's inversion with the defaults. It goes through the call for any method, so that the archive has the rounds once.
#[unsafe(no_mangle)]
pub extern "C" fn simmerstoat_spline_inverse_segment(
    basis: u8,
    y: f64,
    cv: &[f64],
    place: &mut [f64; 4],
    whole: &mut [usize; 3],
) -> u32
    ensures answer { result ≡ chosen (chosen_of basis) no_basis
        (λ b. inverted_reply (inverse_segment_of b y cv.now default_limit default_precision)) }
    ensures place { place.new ≡ chosen (chosen_of basis) place.old
        (λ b. place_left (inverse_segment_of b y cv.now default_limit default_precision) place.old) }
    ensures whole { whole.new ≡ chosen (chosen_of basis) whole.old
        (λ b. whole_left (inverse_segment_of b y cv.now default_limit default_precision) whole.old) }
{
    simmerstoat::simmerstoat_spline_inverse_segment(basis, y, cv, place, whole)
}

// One segment's inversion with a limit and a precision.
#[unsafe(no_mangle)]
pub extern "C" fn simmerstoat_spline_inverse_segment_with(
    basis: u8,
    y: f64,
    cv: &[f64],
    limit: u16,
    precision: f64,
    place: &mut [f64; 4],
    whole: &mut [usize; 3],
) -> u32
    ensures answer { result ≡ chosen (chosen_of basis) no_basis
        (λ b. inverted_reply (inverse_segment_of b y cv.now limit precision)) }
    ensures place { place.new ≡ chosen (chosen_of basis) place.old
        (λ b. place_left (inverse_segment_of b y cv.now limit precision) place.old) }
    ensures whole { whole.new ≡ chosen (chosen_of basis) whole.old
        (λ b. whole_left (inverse_segment_of b y cv.now limit precision) whole.old) }
{
    simmerstoat::simmerstoat_spline_inverse_segment_with(
        basis, y, cv, limit, precision, place, whole,
    )
}

// One segment's conversion, into the first four places of out.
#[unsafe(no_mangle)]
pub extern "C" fn simmerstoat_convert_segment(from: u8, to: u8, cv: &[f64], out: &mut [f64]) -> u32
    ensures answer { result ≡ chosen (chosen_of from) no_basis
        (λ f. chosen (chosen_of to) no_basis
        (λ t. converted_reply (answer_of (converted_segment_of f t cv.now (length out.old))))) }
    ensures buffer { out.new ≡ chosen (chosen_of from) out.old
        (λ f. chosen (chosen_of to) out.old
        (λ t. buffer_of (converted_segment_of f t cv.now (length out.old)) out.old)) }
{
    simmerstoat::simmerstoat_convert_segment(from, to, cv, out)
}

// A curve's conversion, into the first places of out.
#[unsafe(no_mangle)]
pub extern "C" fn simmerstoat_convert_spline(
    from: u8,
    to: u8,
    knots: &[f64],
    out: &mut [f64],
    written: &mut usize,
) -> u32
    ensures answer { result ≡ chosen (chosen_of from) no_basis
        (λ f. chosen (chosen_of to) no_basis
        (λ t. converted_reply (answer_of (converted_of f t knots.now (length out.old))))) }
    ensures length { written.new ≡ chosen (chosen_of from) written.old
        (λ f. chosen (chosen_of to) written.old
        (λ t. length_left (answer_of (converted_of f t knots.now (length out.old))) written.old)) }
    ensures buffer { out.new ≡ chosen (chosen_of from) out.old
        (λ f. chosen (chosen_of to) out.old
        (λ t. buffer_of (converted_of f t knots.now (length out.old)) out.old)) }
{
    simmerstoat::simmerstoat_convert_spline(from, to, knots, out, written)
}
