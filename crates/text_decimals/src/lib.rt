// Decimal digits read as whole numbers, and as thousandths with a point.
#![tactic(auto)]

ghost use Rattle.std.specs.Prelude.{◌≡◌, ◌≤◌, ◌<◌, length, MatchOption};
ghost use Rattle.text_decimals.specs.Decimals.{digit_in, number_in, behind_of, thousandths_of};

// The value of a decimal digit; none for any other byte.
fn digit_in(b: u8) -> Option<u64>
    ensures { MatchOption result (digit_in b ≡ 10) (λ d. (d ≡ digit_in b) × (d < 10)) }
{
    match b {
        b'0'..=b'9' => Some((b - b'0') as u64),
        _ => None,
    }
}

// The number that 1 to `most` digits say.
pub fn number_in(s: &[u8], most: usize) -> Option<u64>
    requires { most ≤ 9 }
    ensures { result ≡ number_in most s.now }
{
    if s.is_empty() || most < s.len() {
        return None;
    }
    let mut n: u64 = 0;
    for b in s {
        let d = digit_in(*b)?;
        n = n * 10 + d;
    }
    Some(n)
}

// The thousandths of 1 to 3 digits behind a point.
fn behind(s: &[u8]) -> Option<u64>
    ensures { result ≡ behind_of s.now }
{
    let n = s.len();
    let f = number_in(s, 3)?;
    if n == 1 {
        return Some(f * 100);
    }
    if n == 2 {
        return Some(f * 10);
    }
    Some(f)
}

// The thousandths that a decimal says.
pub fn thousandths(s: &[u8]) -> Option<u64>
    ensures { result ≡ thousandths_of s.now }
{
    let p = text::place_of(s, b'.');
    if p < s.len() {
        let from = p + 1;
        let w = number_in(&s[0..p], 9)?;
        let f = behind(&s[from..])?;
        return Some(w * 1000 + f);
    }
    let w = number_in(s, 9)?;
    Some(w * 1000)
}
