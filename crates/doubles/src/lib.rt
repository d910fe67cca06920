// Magnitude, clamp to 0..1, interpolation and whole part of doubles. Rust: the dependency `lerp`, and methods of f64.
#![tactic(auto)]

ghost use Rattle.std.specs.Prelude.{◌≡◌};
ghost use Rattle.doubles.specs.Numbers.{magnitude_of, clamp};
ghost use Rattle.doubles.specs.Lerp.{lerp_of};

pub mod whole;

// The number without its sign. Minus zero keeps its sign, as in the crate: `abs` would take it away.
pub fn magnitude(x: f64) -> f64
    ensures { result ≡ magnitude_of x }
{
    if 0.0 > x { -x } else { x }
}

// The nearest number from 0 to 1.
pub fn clamped(x: f64) -> f64
    ensures { result ≡ clamp x }
{
    x.clamp(0.0, 1.0)
}

// The place that is t of the way from lower to upper. At t = 1 it may miss upper by a rounding.
pub fn lerp(lower: f64, upper: f64, t: f64) -> f64
    ensures { result ≡ lerp_of lower upper t }
{
    lower + (upper - lower) * t
}
