// What the exports share: a basis by its number, and each answer as a reply in a number, with what is written behind the pointers.
#![tactic(auto)]

ghost use Rattle.std.specs.Prelude.{◌≡◌};
ghost use Rattle.exports_reply.specs.Replies.{
  chosen_of,
  evaluated_reply,
  value_left,
  ground_number,
  inverted_reply,
  place_left,
  whole_left,
  converted_reply,
  length_left,
};

use basis::Basis;
use error::Refusal;
use inverse_segment::{Ground, Miss, Place};

pub mod options;

// What an export replies to a number that names no basis, no rule of the ends or no method.
pub const UNKNOWN: u32 = 255;

// The basis of a number; the order is that of `bases` in specs/Replies.antt.
pub fn basis_of(n: u8) -> Option<Basis>
    ensures { result ≡ chosen_of n }
{
    match n {
        0 => Some(Basis::Bspline),
        1 => Some(Basis::Bezier),
        2 => Some(Basis::CatmullRom),
        3 => Some(Basis::Hermite),
        4 => Some(Basis::Linear),
        5 => Some(Basis::Power),
        _ => None,
    }
}

// The number by which C gets a ground.
pub fn ground_number(g: Ground) -> usize
    ensures { result ≡ ground_number g }
{
    match g {
        Ground::End => 0,
        Ground::Edge => 1,
        Ground::Value => 2,
        Ground::Width => 3,
        Ground::Spent => 4,
    }
}

// A value is written and answered by 0; a refusal writes nothing.
pub fn value_told(e: Result<f64, Refusal>, value: &mut f64) -> u32
    ensures answer { result ≡ evaluated_reply e }
    ensures value { value.new ≡ value_left e value.old }
{
    match e {
        Ok(v) => {
            *value = v;
            0
        }
        Err(r) => error::reply(r),
    }
}

// A place leaves parameter, local place, lower and upper end, and ground, segment and count; refusal 11 its count.
pub fn place_told(a: Result<Place, Miss>, place: &mut [f64; 4], whole: &mut [usize; 3]) -> u32
    ensures answer { result ≡ inverted_reply a }
    ensures place { place.new ≡ place_left a place.old }
    ensures whole { whole.new ≡ whole_left a whole.old }
{
    match a {
        Ok(p) => {
            *place = [p.parameter, p.local, p.lower, p.upper];
            let g = p.ground;
            *whole = [ground_number(g), p.segment, p.count as usize];
            0
        }
        Err(Miss::OffCurve(n)) => {
            whole[2] = n;
            error::reply(Refusal::OffCurve)
        }
        Err(Miss::Refused(r)) => error::reply(r),
    }
}

// The length is written and answered by 0; a refusal writes nothing.
pub fn length_told(a: Result<usize, Refusal>, written: &mut usize) -> u32
    ensures answer { result ≡ converted_reply a }
    ensures written { written.new ≡ length_left a written.old }
{
    match a {
        Ok(n) => {
            *written = n;
            0
        }
        Err(r) => error::reply(r),
    }
}

// The number by which C gets a conversion's answer.
pub fn conversion_reply(a: Result<usize, Refusal>) -> u32
    ensures { result ≡ converted_reply a }
{
    match a {
        Ok(_) => 0,
        Err(r) => error::reply(r),
    }
}
