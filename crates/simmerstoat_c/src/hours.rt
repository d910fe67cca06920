// What C and Rust call: the depth at a time.
ghost use Rattle.std.specs.Prelude.{◌≡◌};
ghost use Rattle.uneven.specs.Uneven.{depth_of};
ghost use Rattle.exports_reply.specs.Replies.{chosen_of, no_basis, chosen};
ghost use Rattle.exports_value.specs.Uneven.{sounded_reply, depth_left, depth_place_left, depth_whole_left};

// The depth at y of the times.
#[unsafe(no_mangle)]
pub extern "C" fn simmerstoat_depth_at(
    tb: u8,
    times: &[f64],
    db: u8,
    depths: &[f64],
    y: f64,
    limit: u16,
    precision: f64,
    depth: &mut f64,
    place: &mut [f64; 4],
    whole: &mut [usize; 4],
) -> u32
    ensures answer { result ≡ chosen (chosen_of tb) no_basis
        (λ t. chosen (chosen_of db) no_basis
        (λ d. sounded_reply (depth_of t times.now d depths.now y limit precision))) }
    ensures value { depth.new ≡ chosen (chosen_of tb) depth.old
        (λ t. chosen (chosen_of db) depth.old
        (λ d. depth_left (depth_of t times.now d depths.now y limit precision) depth.old)) }
    ensures place { place.new ≡ chosen (chosen_of tb) place.old
        (λ t. chosen (chosen_of db) place.old
        (λ d. depth_place_left (depth_of t times.now d depths.now y limit precision) place.old)) }
    ensures whole { whole.new ≡ chosen (chosen_of tb) whole.old
        (λ t. chosen (chosen_of db) whole.old
        (λ d. depth_whole_left (depth_of t times.now d depths.now y limit precision) whole.old)) }
{
    simmerstoat::hours::simmerstoat_depth_at(
        tb, times, db, depths, y, limit, precision, depth, place, whole,
    )
}
