// What C and Rust call: inversion with every option, the rule of the ends and the method by their numbers.
ghost use Rattle.std.specs.Prelude.{◌≡◌};
ghost use Rattle.inverse_segment.specs.Answer.{inverse_segment_by};
ghost use Rattle.inverse_segment.specs.Method.{rule_of};
ghost use Rattle.inverse.specs.Inverse.{inverse_by, most_of};
ghost use Rattle.exports_reply.specs.Replies.{no_basis, inverted_reply, place_left, whole_left};
ghost use Rattle.exports_reply.specs.Options.{chosen_by};

// A curve's inversion.
#[unsafe(no_mangle)]
pub extern "C" fn simmerstoat_spline_inverse_by(
    basis: u8,
    y: f64,
    knots: &[f64],
    check: bool,
    limit: u16,
    precision: f64,
    ends: u8,
    method: u8,
    place: &mut [f64; 4],
    whole: &mut [usize; 3],
) -> u32
    ensures answer { result ≡ chosen_by basis ends method no_basis
        (λ b e m. inverted_reply (inverse_by e m b y knots.now check limit precision)) }
    ensures place { place.new ≡ chosen_by basis ends method place.old
        (λ b e m. place_left (inverse_by e m b y knots.now check limit precision) place.old) }
    ensures whole { whole.new ≡ chosen_by basis ends method whole.old
        (λ b e m. whole_left (inverse_by e m b y knots.now check limit precision) whole.old) }
{
    simmerstoat::options::simmerstoat_spline_inverse_by(
        basis, y, knots, check, limit, precision, ends, method, place, whole,
    )
}

// One segment's inversion; it has no use for a rule of the ends.
#[unsafe(no_mangle)]
pub extern "C" fn simmerstoat_spline_inverse_segment_by(
    basis: u8,
    y: f64,
    cv: &[f64],
    limit: u16,
    precision: f64,
    method: u8,
    place: &mut [f64; 4],
    whole: &mut [usize; 3],
) -> u32
    ensures answer { result ≡ chosen_by basis 0 method no_basis
        (λ b _ m. inverted_reply (inverse_segment_by (rule_of m) b y cv.now limit precision)) }
    ensures place { place.new ≡ chosen_by basis 0 method place.old
        (λ b _ m. place_left (inverse_segment_by (rule_of m) b y cv.now limit precision) place.old) }
    ensures whole { whole.new ≡ chosen_by basis 0 method whole.old
        (λ b _ m. whole_left (inverse_segment_by (rule_of m) b y cv.now limit precision) whole.old) }
{
    simmerstoat::options::simmerstoat_spline_inverse_segment_by(
        basis, y, cv, limit, precision, method, place, whole,
    )
}

// The most evaluations that a curve's inversion makes of n knots.
#[unsafe(no_mangle)]
pub extern "C" fn simmerstoat_most_evaluations(
    basis: u8,
    n: usize,
    limit: u16,
    ends: u8,
    method: u8,
    most: &mut usize,
) -> u32
    ensures answer { result ≡ chosen_by basis ends method no_basis (λ b e m. 0) }
    ensures most { most.new ≡ chosen_by basis ends method most.old (λ b e m. most_of e m b n limit) }
{
    simmerstoat::options::simmerstoat_most_evaluations(basis, n, limit, ends, method, most)
}
