// What C and Rust call of the calls in whole numbers: where a curve turns back, and a table that cannot. No floating point.
#![tactic(auto)]

ghost use Rattle.std.specs.Prelude.{◌≡◌, length};
ghost use Rattle.whole.specs.Held.{held_all};
ghost use Rattle.turns_back.specs.Call.{turns_back_by_of, turns_back_of};
ghost use Rattle.monotone.specs.Table.{made_of, left_of};
ghost use Rattle.exports_reply.specs.Replies.{chosen_of, no_basis, chosen};
ghost use Rattle.simmerstoat_whole.specs.Replies.{turning_reply, turning_left, made_reply, written_left};

use error::Refusal;
use turns_back::Turning;

// An answer leaves which one it is, and the segment; a refusal writes nothing.
fn turning_told(t: Result<Turning, Refusal>, turning: &mut [usize; 2]) -> u32
    ensures answer { result ≡ turning_reply t }
    ensures turning { turning.new ≡ turning_left t turning.old }
{
    match t {
        Err(r) => error::reply(r),
        Ok(Turning::Never) => {
            *turning = [0, 0];
            0
        }
        Ok(Turning::At(s)) => {
            *turning = [1, s as usize];
            0
        }
        Ok(Turning::Flat) => {
            *turning = [2, 0];
            0
        }
    }
}

// Whether the curve goes against the direction from its own start to its own end.
#[unsafe(no_mangle)]
pub extern "C" fn simmerstoat_turns_back(basis: u8, knots: &[i64], turning: &mut [usize; 2]) -> u32
    ensures answer { result ≡ chosen (chosen_of basis) no_basis
        (λ b. turning_reply (turns_back_of b (held_all knots.now))) }
    ensures turning { turning.new ≡ chosen (chosen_of basis) turning.old
        (λ b. turning_left (turns_back_of b (held_all knots.now)) turning.old) }
{
    let c = exports_reply::basis_of(basis);
    let Some(b) = c else {
        return exports_reply::UNKNOWN;
    };
    turning_told(turns_back::turns_back(b, knots), turning)
}

// Whether it falls anywhere; where `up` is not said, whether it rises.
#[unsafe(no_mangle)]
pub extern "C" fn simmerstoat_turns_back_by(
    basis: u8,
    up: bool,
    knots: &[i64],
    turning: &mut [usize; 2],
) -> u32
    ensures answer { result ≡ chosen (chosen_of basis) no_basis
        (λ b. turning_reply (turns_back_by_of b up (held_all knots.now))) }
    ensures turning { turning.new ≡ chosen (chosen_of basis) turning.old
        (λ b. turning_left (turns_back_by_of b up (held_all knots.now)) turning.old) }
{
    let c = exports_reply::basis_of(basis);
    let Some(b) = c else {
        return exports_reply::UNKNOWN;
    };
    turning_told(turns_back::turns_back_by(b, up, knots), turning)
}

// How many numbers were written is told and answered by 0; a refusal writes nothing.
fn written_told(m: Result<usize, Refusal>, written: &mut usize) -> u32
    ensures answer { result ≡ made_reply m }
    ensures written { written.new ≡ written_left m written.old }
{
    match m {
        Err(r) => error::reply(r),
        Ok(n) => {
            *written = n;
            0
        }
    }
}

// The table of depth and slope by row, into the first places of out.
#[unsafe(no_mangle)]
pub extern "C" fn simmerstoat_monotone(rows: &[i64], out: &mut [i64], written: &mut usize) -> u32
    ensures answer { result ≡ made_reply (made_of (held_all rows.now) (length out.old)) }
    ensures written { written.new ≡
        written_left (made_of (held_all rows.now) (length out.old)) written.old }
    ensures out { out.new ≡ left_of (held_all rows.now) out.old }
{
    written_told(monotone::monotone(rows, out), written)
}
