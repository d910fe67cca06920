// Words, hexadecimal numbers, decimals and doubles as text.
#![tactic(auto)]

ghost use Rattle.std.specs.Prelude.{◌≡◌, [], ◌∷◌, ◌+◌, ◌≤◌, ◌<◌, ◌^◌, length, get_or, MatchOption};
ghost use Rattle.std.specs.Float.Ieee.{to_bits};
ghost use Rattle.std.specs.Float.{binary64};
ghost use Rattle.text.specs.Text.{same, fields_of, place_of, digit_of, hex_of, double_of};
ghost use Rattle.text.specs.Wrote.{Wrote};

mod pen;

pub use pen::Pen;

// Whether s is the word w.
pub fn is_word(s: &[u8], w: &[u8]) -> bool
    ensures { result ≡ same s.now w.now }
{
    s == w
}

// Where the first b of s is; the length where there is none.
// No Option: docs/DECISIONS.md names it with this answer, and callers cut there, the length being where a last field ends.
pub fn place_of(s: &[u8], b: u8) -> usize
    ensures answer { result ≡ place_of b s.now }
    ensures most { result ≤ length s.now }
{
    s.iter().position(|x| *x == b).unwrap_or(s.len())
}

// How many fields s has.
pub fn fields_in(s: &[u8]) -> usize
    ensures { result ≡ length (fields_of s.now) }
{
    s.split(|b| *b == b'\t').count()
}

// Field k of s, the first being 0.
pub fn field(s: &[u8], k: usize) -> &[u8]
    requires { k < length (fields_of s.now) }
    ensures { result.now ≡ get_or (fields_of s.now) k [] }
{
    s.split(|b| *b == b'\t').nth(k).unwrap_or(&[])
}

// The value of an uppercase hexadecimal digit; none for any other byte.
fn digit(b: u8) -> Option<u64>
    ensures { MatchOption result (digit_of b ≡ 16) (λ d. (d ≡ digit_of b) × (d < 16)) }
{
    match b {
        b'0'..=b'9' => Some((b - b'0') as u64),
        b'A'..=b'F' => Some((b - b'A' + 10) as u64),
        _ => None,
    }
}

// The number that 16 digits say.
pub fn hex(s: &[u8]) -> Option<u64>
    ensures { result ≡ hex_of s.now }
{
    if s.len() != 16 {
        return None;
    }
    let mut n: u64 = 0;
    for b in s {
        let d = digit(*b)?;
        n = n * 16 + d;
    }
    Some(n)
}

// The double of a bit pattern; one NaN for all of NaN's patterns.
pub fn of_bits(n: u64) -> f64
    ensures { result ≡ double_of n }
{
    if n % 9223372036854775808 / 4503599627370496 == 2047 {
        if n % 4503599627370496 == 0 {
            return f64::from_bits(n);
        }
        return 0.0 / 0.0;
    }
    f64::from_bits(n)
}

// The bit pattern of a double; a quiet one for NaN.
pub fn to_bits(x: f64) -> u64
    ensures { result ≡ to_bits binary64 x }
{
    if x != x {
        return 9221120237041090560;
    }
    f64::to_bits(x)
}

// Each of the following writes a text from place `at` on, as a pen does, and answers the place after it.
#[tactic(auto, using(crate::proofs::Pens::lands))]
pub fn put_byte(out: &mut [u8], at: usize, b: u8) -> usize
    requires { at < length out.old }
    ensures { Wrote out.old at (b ∷ []) out.new result }
{
    let mut pen = Pen::new(out, at);
    pen.byte(b);
    pen.at()
}

// Writes the bytes of w from place `at` on; the place behind them.
#[tactic(auto, using(crate::proofs::Pens::lands))]
pub fn put_word(out: &mut [u8], at: usize, w: &[u8]) -> usize
    requires { at + length w.now ≤ length out.old }
    ensures { Wrote out.old at w.now out.new result }
{
    let mut pen = Pen::new(out, at);
    pen.word(w);
    pen.at()
}
