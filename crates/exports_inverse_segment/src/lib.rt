// The exports of one segment's inversion: each function has the contract of the export that calls it.
#![tactic(auto)]

ghost use Rattle.std.specs.Prelude.{◌≡◌};
ghost use Rattle.inverse_segment.specs.Answer.{inverse_segment_of, inverse_segment_by, default_limit, default_precision};
ghost use Rattle.inverse_segment.specs.Method.{rule_of, steady_segment_of};
ghost use Rattle.exports_reply.specs.Replies.{chosen_of, no_basis, chosen, inverted_reply, place_left, whole_left};
ghost use Rattle.exports_reply.specs.Options.{chosen_by};

// One segment's inversion with the defaults: the crate's method among the others, so that the archive has its rounds once.
pub fn spline_inverse_segment(
    basis: u8,
    y: f64,
    cv: &[f64],
    place: &mut [f64; 4],
    whole: &mut [usize; 3],
) -> u32
    ensures answer { result ≡ chosen (chosen_of basis) no_basis
        (λ b. inverted_reply (inverse_segment_of b y cv.now default_limit default_precision)) }
    ensures place { place.new ≡ chosen (chosen_of basis) place.old
        (λ b. place_left (inverse_segment_of b y cv.now default_limit default_precision) place.old) }
    ensures whole { whole.new ≡ chosen (chosen_of basis) whole.old
        (λ b. whole_left (inverse_segment_of b y cv.now default_limit default_precision) whole.old) }
{
    let c = exports_reply::basis_of(basis);
    let Some(b) = c else {
        return exports_reply::UNKNOWN;
    };
    exports_reply::place_told(
        inverse_segment::spline_inverse_segment(b, y, cv),
        place,
        whole,
    )
}

// One segment's inversion with a limit and a precision.
pub fn spline_inverse_segment_with(
    basis: u8,
    y: f64,
    cv: &[f64],
    limit: u16,
    precision: f64,
    place: &mut [f64; 4],
    whole: &mut [usize; 3],
) -> u32
    ensures answer { result ≡ chosen (chosen_of basis) no_basis
        (λ b. inverted_reply (inverse_segment_of b y cv.now limit precision)) }
    ensures place { place.new ≡ chosen (chosen_of basis) place.old
        (λ b. place_left (inverse_segment_of b y cv.now limit precision) place.old) }
    ensures whole { whole.new ≡ chosen (chosen_of basis) whole.old
        (λ b. whole_left (inverse_segment_of b y cv.now limit precision) whole.old) }
{
    let c = exports_reply::basis_of(basis);
    let Some(b) = c else {
        return exports_reply::UNKNOWN;
    };
    exports_reply::place_told(
        inverse_segment::spline_inverse_segment_with(b, y, cv, limit, precision),
        place,
        whole,
    )
}

// One segment's inversion; it has no use for a rule of the ends.
pub fn spline_inverse_segment_by(
    basis: u8,
    y: f64,
    cv: &[f64],
    limit: u16,
    precision: f64,
    method: u8,
    place: &mut [f64; 4],
    whole: &mut [usize; 3],
) -> u32
    ensures answer { result ≡ chosen_by basis 0 method no_basis
        (λ b _ m. inverted_reply (inverse_segment_by (rule_of m) b y cv.now limit precision)) }
    ensures place { place.new ≡ chosen_by basis 0 method place.old
        (λ b _ m. place_left (inverse_segment_by (rule_of m) b y cv.now limit precision) place.old) }
    ensures whole { whole.new ≡ chosen_by basis 0 method whole.old
        (λ b _ m. whole_left (inverse_segment_by (rule_of m) b y cv.now limit precision) whole.old) }
{
    let c = exports_reply::basis_of(basis);
    let Some(b) = c else {
        return exports_reply::UNKNOWN;
    };
    let w = exports_reply::options::way_of(0, method);
    let Some((_, m)) = w else {
        return exports_reply::UNKNOWN;
    };
    exports_reply::place_told(
        inverse_segment::spline_inverse_segment_by(b, y, cv, limit, precision, m),
        place,
        whole,
    )
}

// One segment's inversion.
pub fn spline_inverse_segment_steady(
    basis: u8,
    y: f64,
    cv: &[f64],
    place: &mut [f64; 4],
    whole: &mut [usize; 3],
) -> u32
    ensures answer { result ≡ chosen (chosen_of basis) no_basis (λ b. inverted_reply (steady_segment_of b y cv.now)) }
    ensures place { place.new ≡ chosen (chosen_of basis) place.old
        (λ b. place_left (steady_segment_of b y cv.now) place.old) }
    ensures whole { whole.new ≡ chosen (chosen_of basis) whole.old
        (λ b. whole_left (steady_segment_of b y cv.now) whole.old) }
{
    let c = exports_reply::basis_of(basis);
    let Some(b) = c else {
        return exports_reply::UNKNOWN;
    };
    exports_reply::place_told(
        inverse_segment::spline_inverse_segment_steady(b, y, cv),
        place,
        whole,
    )
}
