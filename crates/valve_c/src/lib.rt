// The archive that C and Rust link for valves that count in whole steps. Its export is one call of the function of `valve` of that name,
// under the same contract. No floating point.
#![tactic(auto)]

ghost use Rattle.std.specs.Prelude.{◌≡◌};
ghost use Rattle.valve.specs.Mix.{mixture_of, mixture_reply, sum_left};

// What C and Rust call: as `mix`, by the arms. A sum is written and answered by 0; a refusal writes nothing.
#[unsafe(no_mangle)]
pub extern "C" fn simmerstoat_valve(step: u16, knots: &[i64], sum: &mut i64) -> u32
    ensures answer { result ≡ mixture_reply (mixture_of step knots.now) }
    ensures sum { sum.new ≡ sum_left (mixture_of step knots.now) sum.old }
{
    valve::simmerstoat_valve(step, knots, sum)
}
