// The refusals that several calls share: lengths, knots, and what an inversion is asked.
// A call asks for those that it has use for, in the order of the table (crates/error/specs/Refusals.antt).
#![tactic(auto)]

ghost use Rattle.std.specs.Prelude.{◌≡◌, [], ◌∷◌, ◌≤◌, length};
ghost use Rattle.basis.specs.Basis.{most_knots};
ghost use Rattle.error.specs.Found.{Found};
ghost use Rattle.error.specs.Refusals.{first};
ghost use Rattle.checks.specs.Checks.{curve_length, segment_length, in_range, all_in_range, first_bad, bad_knot, precise, asked};

use basis::Basis;
use error::Refusal;

// The greatest magnitude of a knot: 2^40.
const GREATEST: f64 = 1099511627776.0;

// Refusals 1, 2 and 3 of a curve with n knots.
pub fn curve_length(b: Basis, n: usize) -> Result<(), Refusal>
    ensures { result ≡ first (curve_length b n) }
{
    if n < 4 {
        return Err(Refusal::TooFew);
    }
    if !basis::is_regular(b, n) {
        return Err(Refusal::BadPattern);
    }
    if basis::MOST_KNOTS < n {
        return Err(Refusal::TooMany);
    }
    Ok(())
}

// Refusals 1 and 2 of one segment with n knots.
pub fn segment_length(n: usize) -> Result<(), Refusal>
    ensures { result ≡ first (segment_length n) }
{
    if n < 4 {
        return Err(Refusal::TooFew);
    }
    if 4 < n {
        return Err(Refusal::BadPattern);
    }
    Ok(())
}

// Whether a knot may be calculated with: its size is at most 2 to the 40, and it is no NaN.
pub fn in_range(x: f64) -> bool
    ensures { result ≡ in_range x }
{
    -GREATEST <= x && x <= GREATEST
}

// No early exit: a flag is several times quicker on good knots.
fn all_in_range(knots: &[f64]) -> bool
    ensures { result ≡ all_in_range knots.now }
{
    let mut good = true;
    for x in knots {
        good &= in_range(*x);
    }
    good
}

// The first knot that is out of range, if one is.
fn first_bad(knots: &[f64]) -> Option<usize>
    ensures { Found (length knots.now) (first_bad knots.now) result }
{
    (0..knots.len()).find(|i| !in_range(knots[*i]))
}

// Refusal 4. Which knot is out of range is looked for only where one is. The length has been tested, so that its number fits 16 bits.
pub fn knots(knots: &[f64]) -> Result<(), Refusal>
    requires { length knots.now ≤ most_knots }
    ensures { result ≡ first (bad_knot knots.now ∷ []) }
{
    if all_in_range(knots) {
        return Ok(());
    }
    // One is out of range, so the last arm cannot come. It refuses too: where it answered, the frame of a conversion was a word larger.
    match first_bad(knots) {
        Some(i) => Err(Refusal::BadKnot(i as u16)),
        None => Err(Refusal::BadKnot(0)),
    }
}

// A precision is positive and finite.
pub fn is_precise(precision: f64) -> bool
    ensures { result ≡ precise precision }
{
    0.0 < precision && precision < 1.0 / 0.0
}

// Refusals 5, 6 and 7 of an inversion: its target, precision and limit.
pub fn asked(y: f64, limit: u16, precision: f64) -> Result<(), Refusal>
    ensures { result ≡ first (asked y limit precision) }
{
    if y != y {
        return Err(Refusal::NotANumber);
    }
    if !is_precise(precision) {
        return Err(Refusal::BadPrecision);
    }
    if limit == 0 {
        return Err(Refusal::NoRounds);
    }
    Ok(())
}
