// The direction of the knots, the order check, and by which ends a target may lie beyond a curve.
#![tactic(auto)]

ghost use Rattle.std.specs.Prelude.{◌≡◌, [], ◌∷◌, not, ◌&&◌, ◌-◌, ◌≤◌, length, drop};
ghost use Rattle.basis.specs.Basis.{most_knots};
ghost use Rattle.error.specs.declared.Refusal.TheVariants.{TurnsBack};
ghost use Rattle.error.specs.Found.{Found};
ghost use Rattle.error.specs.Refusals.{first};
ghost use Rattle.checks.specs.Checks.{all_in_range, bad_knot};
ghost use Rattle.inverse_order.specs.Order.{before, rises, turns_back, turns_at, turning_knot, turn_back};
ghost use Rattle.inverse_order.specs.Contract.{follows, kept};

use error::Refusal;

// Whether the end rule of an inversion goes by the knots, as in the crate, or by the curve's own ends.
#[derive(Clone, Copy)]
pub enum EndsBy {
    Knots,
    Curve,
}

// The knots' direction, by the second and the last but one.
pub fn rising(knots: &[f64]) -> bool
    requires { 4 ≤ length knots.now }
    ensures { result ≡ rises knots.now }
{
    knots[1] < knots[knots.len() - 2]
}

// Whether y comes before v in the knots' direction.
pub fn lies_before(rising: bool, y: f64, v: f64) -> bool
    ensures { result ≡ before rising y v }
{
    if rising { y < v } else { v < y }
}

// Whether b may follow a: equal knots are in order.
fn follows_in(rising: bool, a: f64, b: f64) -> bool
    ensures { result ≡ follows rising a b }
{
    if rising { a <= b } else { b <= a }
}

// No early exit: a flag is several times quicker on good knots.
fn scanned(rising: bool, knots: &[f64]) -> bool
    requires { 4 ≤ length knots.now }
    ensures { result ≡ kept rising (drop 1 knots.now) }
{
    let mut good = true;
    for (a, b) in knots[1..].iter().zip(&knots[2..]) {
        good &= follows_in(rising, *a, *b);
    }
    good
}

// Whether each pair from knot 1 on keeps the direction. Each scan has the direction as a constant, and so no test of it in its loop.
fn keeps(rising: bool, knots: &[f64]) -> bool
    requires { 4 ≤ length knots.now }
    ensures { result ≡ kept rising (drop 1 knots.now) }
{
    if rising {
        return scanned(true, knots);
    }
    scanned(false, knots)
}

// Knots 0, 1 and the last are in range and each pair from knot 1 on keeps its direction: so all are in range, and in order.
pub fn is_sound(knots: &[f64]) -> bool
    requires { 4 ≤ length knots.now }
    ensures { result ≡ (all_in_range knots.now && not (turns_back knots.now)) }
{
    checks::in_range(knots[0])
        && checks::in_range(knots[1])
        && checks::in_range(knots[knots.len() - 1])
        && keeps(rising(knots), knots)
}

// From knot 1 on, the first whose step to the next goes against the direction, if one does.
// By number: both knots of a step are read and the number is the answer, so an iterator over pairs would be no plainer.
fn first_turn(rising: bool, knots: &[f64]) -> Option<usize>
    requires { 4 ≤ length knots.now }
    ensures { Found (length knots.now - 1) (turns_at rising 1 (drop 1 knots.now)) result }
{
    for i in 1..knots.len() - 1 {
        if lies_before(rising, knots[i + 1], knots[i]) {
            return Some(i);
        }
    }
    None
}

// Refusal 10, with the knot that turns back: looked for only where there is one. Where none does, its contract tells the last.
pub fn turning_knot(knots: &[f64]) -> Refusal
    requires enough { 4 ≤ length knots.now }
    requires most { length knots.now ≤ most_knots }
    ensures { result ≡ TurnsBack (turning_knot knots.now) }
{
    Refusal::TurnsBack(first_turn(rising(knots), knots).unwrap_or(knots.len() - 1) as u16)
}

// Refusals 4 and 10. With the order check, one scan serves both where nothing is wrong; where something is, they are tested one by one.
pub fn knots_verdict(knots: &[f64], check: bool) -> Result<(), Refusal>
    requires enough { 4 ≤ length knots.now }
    requires most { length knots.now ≤ most_knots }
    ensures { result ≡ first (bad_knot knots.now ∷ turn_back check knots.now ∷ []) }
{
    if !check {
        return checks::knots(knots);
    }
    if is_sound(knots) {
        return Ok(());
    }
    checks::knots(knots)?;
    Err(turning_knot(knots))
}
