// The exports of a curve's inversion: each function has the contract of the export that calls it.
#![tactic(auto)]

ghost use Rattle.std.specs.Prelude.{◌≡◌};
ghost use Rattle.inverse_segment.specs.Answer.{default_limit, default_precision};
ghost use Rattle.inverse.specs.Inverse.{inverse_of, inverse_by, steady_of, most_of};
ghost use Rattle.exports_reply.specs.Replies.{chosen_of, no_basis, chosen, inverted_reply, place_left, whole_left};
ghost use Rattle.exports_reply.specs.Options.{chosen_by};

use inverse::Options;

// A curve's inversion with the defaults.
pub fn spline_inverse(
    basis: u8,
    y: f64,
    knots: &[f64],
    check: bool,
    place: &mut [f64; 4],
    whole: &mut [usize; 3],
) -> u32
    ensures answer { result ≡ chosen (chosen_of basis) no_basis
        (λ b. inverted_reply (inverse_of b y knots.now check default_limit default_precision)) }
    ensures place { place.new ≡ chosen (chosen_of basis) place.old
        (λ b. place_left (inverse_of b y knots.now check default_limit default_precision) place.old) }
    ensures whole { whole.new ≡ chosen (chosen_of basis) whole.old
        (λ b. whole_left (inverse_of b y knots.now check default_limit default_precision) whole.old) }
{
    let c = exports_reply::basis_of(basis);
    let Some(b) = c else {
        return exports_reply::UNKNOWN;
    };
    exports_reply::place_told(inverse::spline_inverse(b, y, knots, check), place, whole)
}

// A curve's inversion with a limit and a precision.
pub fn spline_inverse_with(
    basis: u8,
    y: f64,
    knots: &[f64],
    check: bool,
    limit: u16,
    precision: f64,
    place: &mut [f64; 4],
    whole: &mut [usize; 3],
) -> u32
    ensures answer { result ≡ chosen (chosen_of basis) no_basis
        (λ b. inverted_reply (inverse_of b y knots.now check limit precision)) }
    ensures place { place.new ≡ chosen (chosen_of basis) place.old
        (λ b. place_left (inverse_of b y knots.now check limit precision) place.old) }
    ensures whole { whole.new ≡ chosen (chosen_of basis) whole.old
        (λ b. whole_left (inverse_of b y knots.now check limit precision) whole.old) }
{
    let c = exports_reply::basis_of(basis);
    let Some(b) = c else {
        return exports_reply::UNKNOWN;
    };
    exports_reply::place_told(
        inverse::spline_inverse_with(b, y, knots, check, limit, precision),
        place,
        whole,
    )
}

// A curve's inversion.
pub fn spline_inverse_by(
    basis: u8,
    y: f64,
    knots: &[f64],
    check: bool,
    limit: u16,
    precision: f64,
    ends: u8,
    method: u8,
    place: &mut [f64; 4],
    whole: &mut [usize; 3],
) -> u32
    ensures answer { result ≡ chosen_by basis ends method no_basis
        (λ b e m. inverted_reply (inverse_by e m b y knots.now check limit precision)) }
    ensures place { place.new ≡ chosen_by basis ends method place.old
        (λ b e m. place_left (inverse_by e m b y knots.now check limit precision) place.old) }
    ensures whole { whole.new ≡ chosen_by basis ends method whole.old
        (λ b e m. whole_left (inverse_by e m b y knots.now check limit precision) whole.old) }
{
    let c = exports_reply::basis_of(basis);
    let Some(b) = c else {
        return exports_reply::UNKNOWN;
    };
    let w = exports_reply::options::way_of(ends, method);
    let Some((e, m)) = w else {
        return exports_reply::UNKNOWN;
    };
    let o = Options {
        check: check,
        limit: limit,
        precision: precision,
        ends: e,
        method: m,
    };
    exports_reply::place_told(inverse::spline_inverse_by(o, b, y, knots), place, whole)
}

// A curve's inversion.
pub fn spline_inverse_steady(
    basis: u8,
    y: f64,
    knots: &[f64],
    check: bool,
    place: &mut [f64; 4],
    whole: &mut [usize; 3],
) -> u32
    ensures answer { result ≡ chosen (chosen_of basis) no_basis (λ b. inverted_reply (steady_of b y knots.now check)) }
    ensures place { place.new ≡ chosen (chosen_of basis) place.old
        (λ b. place_left (steady_of b y knots.now check) place.old) }
    ensures whole { whole.new ≡ chosen (chosen_of basis) whole.old
        (λ b. whole_left (steady_of b y knots.now check) whole.old) }
{
    let c = exports_reply::basis_of(basis);
    let Some(b) = c else {
        return exports_reply::UNKNOWN;
    };
    exports_reply::place_told(
        inverse::spline_inverse_steady(b, y, knots, check),
        place,
        whole,
    )
}

// The most evaluations that a curve's inversion makes of n knots.
pub fn most_evaluations(
    basis: u8,
    n: usize,
    limit: u16,
    ends: u8,
    method: u8,
    most: &mut usize,
) -> u32
    ensures answer { result ≡ chosen_by basis ends method no_basis (λ b e m. 0) }
    ensures most { most.new ≡ chosen_by basis ends method most.old (λ b e m. most_of e m b n limit) }
{
    let c = exports_reply::basis_of(basis);
    let Some(b) = c else {
        return exports_reply::UNKNOWN;
    };
    let w = exports_reply::options::way_of(ends, method);
    let Some((e, m)) = w else {
        return exports_reply::UNKNOWN;
    };
    *most = inverse::most_evaluations(b, n, limit, e, m) as usize;
    0
}
