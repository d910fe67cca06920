// Valves that count in whole steps: four whole knots, mixed by stored weights. No floating point.
#![tactic(auto)]

ghost use Rattle.std.specs.Prelude.{◌≡◌, ◌≤◌, length, pos, nat_abs, ◌+ℤ◌, ◌*ℤ◌};
ghost use Rattle.std.specs.Int.{w64};
ghost use Rattle.std.proofs.Common.{SFits};
ghost use Rattle.error.specs.Found.{Found};
ghost use Rattle.error.specs.Refusals.{first};
ghost use Rattle.valve.specs.Mix.{small, first_large, mix_uses, mixture_of, mixture_reply, sum_left};
ghost use Rattle.valve.specs.Contract.{SmallKnots, Few, weighted_of};

use error::Refusal;
use weights::Four;

pub mod arms;
pub mod weights;

// A weight as a wide number.
fn wide(w: u32) -> i64
    requires { w ≤ 67108864 }
    ensures { result ≡ pos w }
{
    w as i64
}

// A product, whose bounds the contract states.
fn times(a: i64, b: i64) -> i64
    requires { SFits w64 (a *ℤ b) }
    ensures { result ≡ a *ℤ b }
{
    a * b
}

// A sum, whose bounds the contract states.
fn plus(a: i64, b: i64) -> i64
    requires { SFits w64 (a +ℤ b) }
    ensures { result ≡ a +ℤ b }
{
    a + b
}

// A weight times a knot.
fn term(w: u32, k: i64) -> i64
    requires weight { w ≤ 67108864 }
    requires knot { nat_abs k ≤ 1000000 }
    ensures answer { result ≡ pos w *ℤ k }
    ensures small_after { nat_abs result ≤ 67108864000000 }
{
    times(wide(w), k)
}

// The weighted sum, undivided.
fn weighted_sum(w: Four, knots: &[i64]) -> i64
    requires few { Few w.w0 w.w1 w.w2 w.w3 }
    requires enough { 4 ≤ length knots.now }
    requires small { SmallKnots knots.now }
    ensures { result ≡ weighted_of knots.now w.w0 w.w1 w.w2 w.w3 }
{
    let a = term(w.w0, knots[0]);
    let b = term(w.w1, knots[1]);
    let c = term(w.w2, knots[2]);
    let d = term(w.w3, knots[3]);
    plus(plus(plus(a, b), c), d)
}

// Whether a knot is at most 1,000,000 in magnitude: by two comparisons, since the magnitude of the least i64 is no i64.
fn is_small(k: i64) -> bool
    ensures { result ≡ small k }
{
    -1000000 <= k && k <= 1000000
}

// The first of four knots that is too large, if one is.
fn first_large(knots: &[i64]) -> Option<usize>
    requires { length knots.now ≡ 4 }
    ensures { Found 4 (first_large knots.now) result }
{
    knots.iter().position(|k| !is_small(*k))
}

// The refusals, apart from the mixing.
fn verdict(step: u16, knots: &[i64]) -> Result<(), Refusal>
    ensures { result ≡ first (mix_uses step knots.now) }
{
    if knots.len() < 4 {
        return Err(Refusal::TooFew);
    }
    if 4 < knots.len() {
        return Err(Refusal::BadPattern);
    }
    if 256 < step {
        return Err(Refusal::BadStep);
    }
    if let Some(i) = first_large(knots) {
        return Err(Refusal::BadKnot(i as u16));
    }
    Ok(())
}

// Four knots mixed at a step from 0 to 256.
pub fn mix(step: u16, knots: &[i64]) -> Result<i64, Refusal>
    ensures { result ≡ mixture_of step knots.now }
{
    verdict(step, knots)?;
    Ok(weighted_sum(weights::row(step as usize), knots))
}

// What C and Rust call: as `mix`, by the arms. A sum is written and answered by 0; a refusal writes nothing.
#[unsafe(no_mangle)]
pub extern "C" fn simmerstoat_valve(step: u16, knots: &[i64], sum: &mut i64) -> u32
    ensures answer { result ≡ mixture_reply (mixture_of step knots.now) }
    ensures sum { sum.new ≡ sum_left (mixture_of step knots.now) sum.old }
{
    let v = verdict(step, knots);
    match v {
        Err(r) => error::reply(r),
        Ok(()) => {
            *sum = weighted_sum(arms::row(step), knots);
            0
        }
    }
}
