// What C and Rust call: inversion by the steady method with its defaults, which is never spent.
ghost use Rattle.std.specs.Prelude.{◌≡◌};
ghost use Rattle.inverse_segment.specs.Method.{steady_segment_of};
ghost use Rattle.inverse.specs.Inverse.{steady_of};
ghost use Rattle.table.specs.Calls.{table_steady_of};
ghost use Rattle.exports_reply.specs.Replies.{chosen_of, no_basis, chosen, inverted_reply, place_left, whole_left};
ghost use Rattle.exports_table.specs.Tables.{table_of, timed_reply, timed_place, timed_whole};

// A curve's inversion.
#[unsafe(no_mangle)]
pub extern "C" fn simmerstoat_spline_inverse_steady(
    basis: u8,
    y: f64,
    knots: &[f64],
    check: bool,
    place: &mut [f64; 4],
    whole: &mut [usize; 3],
) -> u32
    ensures answer { result ≡ chosen (chosen_of basis) no_basis (λ b. inverted_reply (steady_of b y knots.now check)) }
    ensures place { place.new ≡ chosen (chosen_of basis) place.old
        (λ b. place_left (steady_of b y knots.now check) place.old) }
    ensures whole { whole.new ≡ chosen (chosen_of basis) whole.old
        (λ b. whole_left (steady_of b y knots.now check) whole.old) }
{
    simmerstoat::steady::simmerstoat_spline_inverse_steady(basis, y, knots, check, place, whole)
}

// One segment's inversion.
#[unsafe(no_mangle)]
pub extern "C" fn simmerstoat_spline_inverse_segment_steady(
    basis: u8,
    y: f64,
    cv: &[f64],
    place: &mut [f64; 4],
    whole: &mut [usize; 3],
) -> u32
    ensures answer { result ≡ chosen (chosen_of basis) no_basis (λ b. inverted_reply (steady_segment_of b y cv.now)) }
    ensures place { place.new ≡ chosen (chosen_of basis) place.old
        (λ b. place_left (steady_segment_of b y cv.now) place.old) }
    ensures whole { whole.new ≡ chosen (chosen_of basis) whole.old
        (λ b. whole_left (steady_segment_of b y cv.now) whole.old) }
{
    simmerstoat::steady::simmerstoat_spline_inverse_segment_steady(basis, y, cv, place, whole)
}

// A curve's inversion, of a table with a span.
#[unsafe(no_mangle)]
pub extern "C" fn simmerstoat_table_spline_inverse_steady(
    basis: u8,
    span: u32,
    y: f64,
    knots: &[f64],
    check: bool,
    place: &mut [f64; 4],
    whole: &mut [usize; 4],
) -> u32
    ensures answer { result ≡ chosen (chosen_of basis) no_basis
        (λ b. timed_reply (table_steady_of (table_of span b) y knots.now check)) }
    ensures place { place.new ≡ chosen (chosen_of basis) place.old
        (λ b. timed_place (table_steady_of (table_of span b) y knots.now check) place.old) }
    ensures whole { whole.new ≡ chosen (chosen_of basis) whole.old
        (λ b. timed_whole (table_steady_of (table_of span b) y knots.now check) whole.old) }
{
    simmerstoat::steady::simmerstoat_table_spline_inverse_steady(
        basis, span, y, knots, check, place, whole,
    )
}
