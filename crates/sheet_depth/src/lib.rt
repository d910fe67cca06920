// A depth in whole thousandths as a double.
#![tactic(auto)]

ghost use Rattle.std.specs.Prelude.{◌≡◌, ◌≤◌};
ghost use Rattle.sheet_depth.specs.Depth.{greatest, depth_of};

// n thousandths, below zero where `minus`: divided once. Minus zero is zero.
pub fn depth(minus: bool, n: u64) -> f64
    requires { n ≤ greatest }
    ensures { result ≡ depth_of minus n }
{
    if n == 0 {
        return 0.0;
    }
    if minus {
        return -(n as f64) / 1000.0;
    }
    n as f64 / 1000.0
}
