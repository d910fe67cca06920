// A double's bit pattern as a decimal, rounded to d digits behind the point in whole numbers alone.
#![tactic(auto, using(text::proofs::Pens::pens))]

ghost use Rattle.std.specs.Prelude.{◌≡◌, ◌&&◌, ◌+◌, ◌*◌, ◌≤◌, ◌<◌, ◌^◌, ltb, length};
ghost use Rattle.std.specs.Float.Ieee.Nearest.{closest};
ghost use Rattle.text.specs.Pens.{HasRoom, Writes};
ghost use Rattle.text_rounded.specs.Rounded.{minus_in, largest, significand_of, shift_of, units_of, fixed_text, sign_text, rounded_text};

use text::Pen;

// Room for the longest text, -1099511627776.000000.
pub const WIDEST: usize = 21;

// (high · 2048 + low) / (half · 4096) to the nearest whole number, ties to even.
fn nearest(high: u64, low: u64, half: u64) -> u64
    requires low { low < 2048 }
    requires high { high < 2 ^ 63 }
    requires some { 0 < half }
    requires half { half ≤ 2 ^ 62 }
    ensures { result ≡ closest (high * 2048 + low) (half * 4096) }
{
    let unit = half * 2;
    let q = high / unit;
    let r = high % unit;
    if r < half {
        return q;
    }
    if half < r {
        return q + 1;
    }
    if low > 0 {
        return q + 1;
    }
    q + q % 2
}

// The significand of a magnitude's pattern.
fn significand(a: u64) -> u64
    ensures answer { result ≡ significand_of a }
    ensures short { result < 2 ^ 53 }
{
    if a < 4503599627370496 {
        return a;
    }
    4503599627370496 + a % 4503599627370496
}

// The power of two that the significand is divided by.
fn shift(a: u64) -> u64
    requires { a ≤ largest }
    ensures answer { result ≡ shift_of a }
    ensures least { 12 ≤ result }
{
    if a < 4503599627370496 {
        return 1074;
    }
    1075 - a / 4503599627370496
}

// How many units of 10^-d a magnitude's pattern is. The product of significand and 10^d may need 73 bits: its lowest 11 stand apart.
pub fn units(a: u64, d: usize) -> u64
    requires magnitude { a ≤ largest }
    requires digits { d ≤ 6 }
    ensures answer { result ≡ units_of d a }
    ensures most { result ≤ 2 ^ 41 * 10 ^ d }
{
    let m = significand(a);
    let s = shift(a);
    if s > 74 {
        return 0;
    }
    let scale = 10u64.pow(d as u32);
    let low = m % 2048 * scale;
    let high = m / 2048 * scale + low / 2048;
    nearest(high, low % 2048, 2u64.pow((s - 12) as u32))
}

// n units of 10^-d, with d digits behind the point.
// It calls itself: the digits are written from the highest one, and no place is counted.
#[tactic(auto, using(text::proofs::Pens::pens, crate::proofs::Writing::by_digits))]
pub fn put_fixed(pen: &mut Pen, n: u64, d: usize)
    requires digits { n < 10 ^ (d + 13) }
    requires room { HasRoom pen.old (d + 14) }
    ensures { Writes pen.old (fixed_text d n) (d + 14) pen.new }
{
    if d == 0 {
        pen.decimal(n, 12);
        pen.byte(b'.');
    } else {
        put_fixed(pen, n / 10, d - 1);
        pen.byte(48 + (n % 10) as u8);
    }
}

// Whether a double's sign bit is set.
fn is_minus(n: u64) -> bool
    ensures { result ≡ minus_in n }
{
    n >= 9223372036854775808
}

// Nothing that rounds to zero has a sign.
fn is_below_zero(n: u64, units: u64) -> bool
    ensures { result ≡ (minus_in n && ltb 0 units) }
{
    units > 0 && is_minus(n)
}

// A minus sign, or nothing.
fn put_sign(pen: &mut Pen, minus: bool)
    requires { HasRoom pen.old 1 }
    ensures { Writes pen.old (sign_text minus) 1 pen.new }
{
    if minus {
        pen.byte(b'-');
    }
}

// The double of the pattern n, with d digits behind the point; a word for one that is no number, or above 2^40 in magnitude.
#[tactic(auto, using(text::proofs::Pens::pens, crate::proofs::Writing::the_cases, crate::proofs::Parts::units_short))]
pub fn put_rounded(pen: &mut Pen, n: u64, d: usize)
    requires digits { d ≤ 6 }
    requires room { HasRoom pen.old 21 }
    ensures { Writes pen.old (rounded_text d n) 21 pen.new }
{
    let a = n % 9223372036854775808;
    if a > 9218868437227405312 {
        pen.word(b"nan");
    } else if a > 4787326403894837248 {
        put_sign(pen, is_minus(n));
        if a == 9218868437227405312 {
            pen.word(b"inf");
        } else {
            pen.word(b"large");
        }
    } else {
        let u = units(a, d);
        put_sign(pen, is_below_zero(n, u));
        put_fixed(pen, u, d);
    }
}
