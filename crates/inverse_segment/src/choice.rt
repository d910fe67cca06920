// The choice of the next place, by each method: what is weighed, and where in the bracket the place lies.
ghost use Rattle.std.specs.Prelude.{◌≡◌};
ghost use Rattle.inverse_segment.specs.Round.{halving, toward, weighed, fraction};
ghost use Rattle.inverse_segment.specs.Steady.{inner};
ghost use Rattle.inverse_segment.specs.Contract.{weighting_of, ChordIs, PacedIs, ChoiceIs};

use crate::{Bracket, Method, NextPlace, Side, State};

// The weighting as in the crate: the stored value of the end that moved last is halved. `y` is unused here; the other weighting needs it.
fn halved(y: f64, lower_moved_last: bool, b: Bracket) -> Bracket
    ensures { result ≡ halving y lower_moved_last b }
{
    if lower_moved_last {
        Bracket {
            v0: b.v0 * 0.5,
            ..b
        }
    } else {
        Bracket {
            v1: b.v1 * 0.5,
            ..b
        }
    }
}

// The distance to the target is halved at the end that did not move last.
fn toward(y: f64, lower_moved_last: bool, b: Bracket) -> Bracket
    ensures { result ≡ toward y lower_moved_last b }
{
    if lower_moved_last {
        Bracket {
            v1: y + (b.v1 - y) * 0.5,
            ..b
        }
    } else {
        Bracket {
            v0: y + (b.v0 - y) * 0.5,
            ..b
        }
    }
}

// The weighting of a method: the steady one has that which is taught.
fn reweighed(how: Method, y: f64, lower_moved_last: bool, b: Bracket) -> Bracket
    ensures { result ≡ weighting_of how y lower_moved_last b }
{
    match how {
        Method::AsCrate => halved(y, lower_moved_last, b),
        Method::Taught => toward(y, lower_moved_last, b),
        Method::Steady => toward(y, lower_moved_last, b),
    }
}

// The bracket, with the value at the end that stayed moved towards the target once the other end has moved twice in a row.
fn weighed(how: Method, y: f64, regula_falsi: bool, st: State) -> Bracket
    ensures { result ≡ weighed (weighting_of how) y regula_falsi st }
{
    let b = st.bracket;
    if regula_falsi {
        if 0 < st.repeats {
            return reweighed(how, y, crate::is_last(Side::Lower, st.side), b);
        }
        return b;
    }
    b
}

// Where in the bracket the next place lies, from 0 to 1. All halves go through one return, so that the compiler keeps the tests as branches
// and divides only where the quotient is wanted.
fn fraction(y: f64, regula_falsi: bool, b: Bracket) -> f64
    ensures { result ≡ fraction y regula_falsi b }
{
    if regula_falsi {
        let t = (y - b.v0) / (b.v1 - b.v0);
        if 0.01 < t {
            if t < 0.99 {
                return t;
            }
        }
    }
    0.5
}

// The place on the chord of the weighed values, as the crate has it and as it is taught.
fn chord(how: Method, y: f64, regula_falsi: bool, st: State) -> NextPlace
    ensures { ChordIs how y regula_falsi st result }
{
    let a = weighed(how, y, regula_falsi, st);
    let x = doubles::lerp(a.lower, a.upper, fraction(y, regula_falsi, a));
    NextPlace {
        bracket: a,
        place: x,
    }
}

// The place if it lies inside the bracket, else the middle.
fn inner(b: Bracket, x: f64) -> f64
    ensures { result ≡ inner b x }
{
    if b.lower < x {
        if x < b.upper {
            return x;
        }
        return doubles::lerp(b.lower, b.upper, 0.5);
    }
    doubles::lerp(b.lower, b.upper, 0.5)
}

// At the pace: the midpoint of a bracket that is wider than the width allowed, or else the chord's place strictly inside.
fn paced(y: f64, width: f64, st: State) -> NextPlace
    ensures { PacedIs y width st result }
{
    let b = st.bracket;
    if width < b.upper - b.lower {
        return NextPlace {
            bracket: b,
            place: doubles::lerp(b.lower, b.upper, 0.5),
        };
    }
    let a = weighed(Method::Steady, y, true, st);
    let t = (y - a.v0) / (a.v1 - a.v0);
    NextPlace {
        bracket: a,
        place: inner(a, doubles::lerp(a.lower, a.upper, t)),
    }
}

// By the method that is asked for: whether the round goes by regula falsi is the chord's to know, the width allowed the pace's.
pub fn choose(how: Method, y: f64, regula_falsi: bool, width: f64, st: State) -> NextPlace
    ensures { ChoiceIs how y regula_falsi width st result }
{
    let Method::Steady = how else {
        return chord(how, y, regula_falsi, st);
    };
    paced(y, width, st)
}
