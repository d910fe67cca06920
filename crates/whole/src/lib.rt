// Whole numbers of a lent slice: how large they are, and each raised so that none is negative. No floating point.
#![tactic(auto)]

ghost use Rattle.std.specs.Prelude.{◌≡◌, ◌*◌, ◌≤◌, nat_abs, length};
ghost use Rattle.std.proofs.Math.IntN.{sub_ℕ};
ghost use Rattle.error.specs.Found.{Found};
ghost use Rattle.whole.specs.Held.{held_all, turned, small, first_large};

// The size of a number: of the least i64 too, whose negative is no i64.
pub fn size(k: i64) -> u64
    ensures { result ≡ nat_abs k }
{
    k.unsigned_abs()
}

// Whether a whole number's size is at most `most`.
pub fn is_small(most: u64, k: i64) -> bool
    ensures { result ≡ small most k }
{
    size(k) <= most
}

// The first number that is larger than `most` in size, if one is.
pub fn first_large(most: u64, numbers: &[i64]) -> Option<usize>
    ensures { Found (length numbers.now) (first_large most (held_all numbers.now)) result }
{
    numbers.iter().position(|k| !is_small(most, *k))
}

// A number raised by `most`, so that it is not negative; where `up` is not said, its negative.
pub fn raised(most: u64, up: bool, k: i64) -> u64
    requires small { nat_abs k ≤ most }
    requires bound { most ≤ 1000000000000 }
    ensures is { sub_ℕ result most ≡ turned up k }
    ensures most { result ≤ 2 * most }
{
    let m = size(k);
    if up == (0 <= k) { most + m } else { most - m }
}
