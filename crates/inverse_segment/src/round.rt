// The rounds of the inversion of a segment, given by its row sums: the width test, the place that the method chooses, the move.
ghost use Rattle.std.specs.Prelude.{◌≡◌, ◌≤◌, ◌<◌, ◌+◌, ltb, ◌&&◌};
ghost use Rattle.inverse_segment.specs.Round.{narrow, repeats_of, moved};
ghost use Rattle.inverse_segment.specs.Contract.{RoundIs, RoundsIs, repeats_after, count_after};

use crate::{Bracket, Ground, Method, RoundResult, Side, State, Stop};
use spline::RowSums;

// Whether the bracket is narrower than the precision.
fn is_narrow(precision: f64, b: Bracket) -> bool
    ensures { result ≡ narrow precision b }
{
    let width = doubles::magnitude(b.upper - b.lower);
    let least = width * 1e-12;
    if least < precision {
        width < precision
    } else {
        width < least
    }
}

// How often an end that moves has moved in a row before.
fn repeats_of(end: Side, st: State) -> u32
    requires { st.repeats < 65536 }
    ensures answer { result ≡ repeats_of end st }
    ensures most { result ≤ st.repeats + 1 }
{
    if crate::is_last(end, st.side) {
        st.repeats + 1
    } else {
        0
    }
}

// The bracket after a round: the place x takes the place of one end; how often that end has moved in a row is counted.
fn moved(lower_moves: bool, b: Bracket, st: State, x: f64, v: f64) -> State
    requires { st.repeats < 65536 }
    ensures answer { result ≡ moved lower_moves b st x v }
    ensures repeats_after { result.repeats ≤ st.repeats + 1 }
{
    if lower_moves {
        State {
            bracket: Bracket {
                lower: x,
                v0: v,
                ..b
            },
            side: Some(Side::Lower),
            repeats: repeats_of(Side::Lower, st),
        }
    } else {
        State {
            bracket: Bracket {
                upper: x,
                v1: v,
                ..b
            },
            side: Some(Side::Upper),
            repeats: repeats_of(Side::Upper, st),
        }
    }
}

// Whether this round goes by the chord; else it halves.
fn uses_regula_falsi(i: u32, early: u32, repeats: u32) -> bool
    ensures { result ≡ (ltb i early && ltb repeats 3) }
{
    i < early && repeats < 3
}

// One round: the width test, the place chosen and evaluated, the move, the value test. n evaluations have been made before it.
fn round(
    how: Method,
    w: RowSums,
    y: f64,
    precision: f64,
    rising: bool,
    regula_falsi: bool,
    width: f64,
    st: State,
    n: u32,
) -> RoundResult
    requires repeats { st.repeats < 65536 }
    requires count { n < 2000000 }
    ensures answer { RoundIs how w y precision rising regula_falsi width st n result }
    ensures repeats_after { repeats_after result ≤ st.repeats + 1 }
    ensures count_after { count_after result ≤ n + 1 }
{
    let b = st.bracket;
    if is_narrow(precision, b) {
        return RoundResult::Done(Ground::Width, doubles::lerp(b.lower, b.upper, 0.5), b, n);
    }
    let c = crate::choice::choose(how, y, regula_falsi, width, st);
    let a = c.bracket;
    let x = c.place;
    let v = spline::segment::horner(w, x);
    let next = moved((v < y) == rising, a, st, x, v);
    if doubles::magnitude(v - y) < precision {
        let e = next.bracket;
        return RoundResult::Done(Ground::Value, x, e, n + 1);
    }
    RoundResult::Next(next, n + 1)
}

// The rounds by a method, from the bracket that is given; n evaluations have been made before them.
pub fn rounds(
    how: Method,
    w: RowSums,
    y: f64,
    precision: f64,
    rising: bool,
    first: Bracket,
    limit: u16,
    n: u32,
) -> Stop
    requires { n ≤ 1000000 }
    ensures { RoundsIs how w y precision rising first limit n result }
{
    let most = limit as u32;
    let early = 3 * most / 4;
    let mut st = State {
        bracket: first,
        side: None,
        repeats: 0,
    };
    let mut width = 16.0;
    let mut i: u32 = 0;
    let mut count = n;
    while i < most {
        let regula_falsi = uses_regula_falsi(i, early, st.repeats);
        let t = round(how, w, y, precision, rising, regula_falsi, width, st, count);
        match t {
            RoundResult::Next(next, k) => {
                st = next;
                count = k;
            }
            RoundResult::Done(ground, x, b, k) => {
                return crate::stopped(ground, x, b, k);
            }
        }
        width = width * 0.5;
        i += 1;
    }
    let b = st.bracket;
    let middle = doubles::lerp(b.lower, b.upper, 0.5);
    crate::stopped(Ground::Spent, middle, b, count)
}
