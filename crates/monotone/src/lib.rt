// A Hermite table through rows of whole depths, whose curve never goes against rows that keep a direction. No floating point.
#![tactic(auto)]

ghost use Rattle.std.specs.Prelude.{◌≡◌, ◌++◌, min, ◌-◌, ◌*◌, ◌≤◌, ◌<◌, pos, neg_ℤ, nat_abs, length, drop};
ghost use Rattle.std.proofs.Math.IntN.{sub_ℕ};
ghost use Rattle.error.specs.Refusals.{first};
ghost use Rattle.whole.specs.Held.{held_all, small, first_large, Small};
ghost use Rattle.monotone.specs.Slope.{limited, between, slope_at};
ghost use Rattle.monotone.specs.Table.{most, table_of, table_uses, made_of, left_of};

use error::Refusal;

// The size of a slope between two steps of these sizes: their half, but at most three times the smaller.
fn limit(a: u64, b: u64) -> u64
    requires a { a ≤ 1000000000000 }
    requires b { b ≤ 1000000000000 }
    ensures is { result ≡ limited a b }
    ensures most { result ≤ 1000000000000 }
{
    ((a + b) / 2).min(3 * a.min(b))
}

// The size as a step up.
pub fn up(m: u64) -> i64
    requires { m ≤ 1000000000000 }
    ensures { result ≡ pos m }
{
    m as i64
}

// The size as a step down.
pub fn down(m: u64) -> i64
    requires { m ≤ 1000000000000 }
    ensures { result ≡ neg_ℤ (pos m) }
{
    -up(m)
}

// The slope between the steps from x to x1 and from y to y1.
fn slope(x: u64, x1: u64, y: u64, y1: u64) -> i64
    requires x { x ≤ 1000000000000 }
    requires x1 { x1 ≤ 1000000000000 }
    requires y { y ≤ 1000000000000 }
    requires y1 { y1 ≤ 1000000000000 }
    ensures { result ≡ between (sub_ℕ x1 x) (sub_ℕ y1 y) }
{
    if x <= x1 {
        if y <= y1 {
            return up(limit(x1 - x, y1 - y));
        }
        return 0;
    }
    if y1 < y {
        return down(limit(x - x1, y - y1));
    }
    0
}

// A row raised by 5 × 10^11, so that it is not negative.
fn raised(k: i64) -> u64
    requires { nat_abs k ≤ most }
    ensures is { sub_ℕ result most ≡ k }
    ensures most { result ≤ 1000000000000 }
{
    whole::raised(500000000000, true, k)
}

// The slope at row i, by the steps before and after it; at the first and the last row by the one step that there is.
fn slope_at(rows: &[i64], i: usize) -> i64
    requires many { 2 ≤ length rows.now }
    requires inside { i < length rows.now }
    requires small { Small most (held_all rows.now) }
    ensures { result ≡ slope_at (held_all rows.now) i }
{
    let l = i.saturating_sub(1);
    let h = i.min(rows.len() - 2);
    let x = raised(rows[l]);
    let x1 = raised(rows[l + 1]);
    let y = raised(rows[h]);
    let y1 = raised(rows[h + 1]);
    slope(x, x1, y, y1)
}

// The writing, once nothing is refused.
fn fill(rows: &[i64], out: &mut [i64])
    requires many { 2 ≤ length rows.now }
    requires few { length rows.now ≤ 2048 }
    requires room { 2 * length rows.now ≤ length out.old }
    requires small { Small most (held_all rows.now) }
    ensures { out.new ≡ table_of (held_all rows.now) ++ drop (2 * length rows.now) out.old }
{
    for (i, row) in rows.iter().enumerate() {
        out[2 * i] = *row;
        out[2 * i + 1] = slope_at(rows, i);
    }
}

// Refusals 1, 3, 9 and 4.
fn verdict(rows: &[i64], room: usize) -> Result<(), Refusal>
    ensures { result ≡ first (table_uses (held_all rows.now) room) }
{
    if rows.len() < 2 {
        return Err(Refusal::TooFew);
    }
    if 2048 < rows.len() {
        return Err(Refusal::TooMany);
    }
    if room < 2 * rows.len() {
        return Err(Refusal::ShortBuffer);
    }
    if let Some(i) = whole::first_large(500000000000, rows) {
        return Err(Refusal::BadKnot(i as u16));
    }
    Ok(())
}

// Hermite's knots for the rows: depth, slope, depth, slope, .. A refusal writes nothing.
pub fn monotone(rows: &[i64], out: &mut [i64]) -> Result<usize, Refusal>
    ensures answer { result ≡ made_of (held_all rows.now) (length out.old) }
    ensures out { out.new ≡ left_of (held_all rows.now) out.old }
{
    verdict(rows, out.len())?;
    fill(rows, out);
    Ok(2 * rows.len())
}
