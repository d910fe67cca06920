// What C and Rust call: a claimed place, checked.
ghost use Rattle.std.specs.Prelude.{◌≡◌};
ghost use Rattle.claim.specs.Claim.{claim_of};
ghost use Rattle.exports_reply.specs.Replies.{chosen_of, no_basis, chosen};
ghost use Rattle.exports_value.specs.Claims.{claimed_reply, holds_left};

// Whether a segment of the curve, at the local place x, is within twice the precision of y.
#[unsafe(no_mangle)]
pub extern "C" fn simmerstoat_check_claim(
    basis: u8,
    y: f64,
    segment: usize,
    x: f64,
    precision: f64,
    knots: &[f64],
    holds: &mut bool,
) -> u32
    ensures answer { result ≡ chosen (chosen_of basis) no_basis
        (λ b. claimed_reply (claim_of b y segment x precision knots.now)) }
    ensures holds { holds.new ≡ chosen (chosen_of basis) holds.old
        (λ b. holds_left (claim_of b y segment x precision knots.now) holds.old) }
{
    simmerstoat::claims::simmerstoat_check_claim(basis, y, segment, x, precision, knots, holds)
}
