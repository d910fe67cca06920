// The whole part of a double. Rust: `to_usize`.
ghost use Rattle.std.specs.Prelude.{◌≡◌, ◌≤◌, ◌<◌, ◌^◌, min};
ghost use Rattle.doubles.specs.Whole.{double, whole_up_to};

// By way of a signed number: that is one instruction.
pub fn double_of(n: usize) -> f64
    requires { n ≤ 4097 }
    ensures { result ≡ double n }
{
    let signed = n as i64;
    signed as f64
}

// The smaller of two numbers.
pub fn lesser(a: usize, b: usize) -> usize
    ensures { result ≡ min a b }
{
    a.min(b)
}

// 1.5 × 2^52, and its pattern: the last bit of a double of this size counts units.
pub const UNITS: f64 = 6755399441055744.0;

pub const UNITS_PATTERN: u64 = 4843621399236968448;

// A guess at the whole part of y, 4096 at most. To y - 1/2, or very nearly that, UNITS is added: the bits of the sum less those of UNITS
// are a whole number. Nothing rests on the guess: whoever takes it tests it by comparing.
pub fn guess(y: f64) -> usize
    ensures { result ≤ 4096 }
{
    let g = (y - 0.4999999) + UNITS;
    if g != g {
        return 0;
    }
    let n = std::num::wrapping_sub_u64(f64::to_bits(g), UNITS_PATTERN);
    if n < 4096 { n as usize } else { 4096 }
}

// The greatest whole number up to m that is at most y, by comparing with the whole number in the middle. No slice is searched, so no
// method of the library serves.
pub fn by_halving(m: u32, y: f64) -> u32
    requires { m < 2 ^ 31 }
    ensures answer { result ≡ whole_up_to m y }
    ensures most { result ≤ m }
{
    let mut low = 0;
    let mut high = m;
    while low < high {
        let mid = (low + high + 1) / 2;
        if mid as f64 <= y {
            low = mid;
        } else {
            high = mid - 1;
        }
    }
    low
}

// The same: the guess, where y lies from it up to the next whole number, and else by halving.
pub fn whole_up_to(m: usize, y: f64) -> usize
    requires { m ≤ 4096 }
    ensures answer { result ≡ whole_up_to m y }
    ensures most { result ≤ m }
{
    let n = guess(y);
    if double_of(n) <= y {
        if y < double_of(n + 1) {
            return n.min(m);
        }
    }
    by_halving(m as u32, y) as usize
}
