// Gauss-Jordan on four rows of eight, which the constant inverses are run against. Rust: src/convert.rs.
#![tactic(auto)]

ghost use Rattle.std.specs.Prelude.{◌≡◌, ◌<◌};
ghost use Rattle.convert_matrix.specs.Elimination.{
  widened,
  pivot_of,
  swapped,
  divided,
  cleared,
  inverse,
  right_half,
  reduced,
  cleared_row,
};
ghost use Rattle.convert_elimination.specs.Contract.{shown, Found};

// [M | I]
fn with_identity(m: [[f64; 4]; 4]) -> [[f64; 8]; 4]
    ensures { result ≡ widened m }
{
    [
        [m[0][0], m[0][1], m[0][2], m[0][3], 1.0, 0.0, 0.0, 0.0],
        [m[1][0], m[1][1], m[1][2], m[1][3], 0.0, 1.0, 0.0, 0.0],
        [m[2][0], m[2][1], m[2][2], m[2][3], 0.0, 0.0, 1.0, 0.0],
        [m[3][0], m[3][1], m[3][2], m[3][3], 0.0, 0.0, 0.0, 1.0],
    ]
}

// The first row from i on with a number other than zero in column i.
fn pivot_row(a: [[f64; 8]; 4], i: usize) -> Option<usize>
    requires { i < 4 }
    ensures answer { result ≡ pivot_of a i }
    ensures found { Found result }
{
    for k in i..4 {
        if a[k][i] != 0.0 {
            return Some(k);
        }
    }
    None
}

// Rows i and k in each other's place.
fn swap(a: [[f64; 8]; 4], i: usize, k: usize) -> [[f64; 8]; 4]
    requires row { i < 4 }
    requires column { k < 4 }
    ensures { result ≡ swapped a i k }
{
    let mut b = a;
    b.swap(i, k);
    b
}

// Row i divided by its number on the diagonal.
fn divide(a: [[f64; 8]; 4], i: usize) -> [[f64; 8]; 4]
    requires { i < 4 }
    ensures { result ≡ divided a i }
{
    let r = a[i];
    let mut b = a;
    b[i] = std::array::from_fn(|j| r[j] / r[i]);
    b
}

// r less f times p
fn reduce(r: [f64; 8], f: f64, p: [f64; 8]) -> [f64; 8]
    ensures { result ≡ reduced r f p }
{
    std::array::from_fn(|j| r[j] - f * p[j])
}

// Row k with zero in column i: a multiple of row i is taken from it.
fn clear_row(a: [[f64; 8]; 4], i: usize, k: usize) -> [f64; 8]
    requires row { i < 4 }
    requires column { k < 4 }
    ensures { result ≡ cleared_row a i k }
{
    if k == i {
        return a[k];
    }
    if a[k][i] == 0.0 {
        return a[k];
    }
    reduce(a[k], a[k][i], a[i])
}

// Every row but i with zero in column i.
fn clear(a: [[f64; 8]; 4], i: usize) -> [[f64; 8]; 4]
    requires { i < 4 }
    ensures { result ≡ cleared a i }
{
    let r0 = clear_row(a, i, 0);
    let r1 = clear_row(a, i, 1);
    let r2 = clear_row(a, i, 2);
    let r3 = clear_row(a, i, 3);
    [r0, r1, r2, r3]
}

// Column i, with its pivot in row k.
fn eliminate(a: [[f64; 8]; 4], i: usize, k: usize) -> [[f64; 8]; 4]
    requires row { i < 4 }
    requires column { k < 4 }
    ensures { result ≡ cleared (divided (swapped a i k) i) i }
{
    clear(divide(swap(a, i, k), i), i)
}

// The inverse, which stands to the right once the left half is the identity.
fn right_half(a: [[f64; 8]; 4]) -> [[f64; 4]; 4]
    ensures { result ≡ right_half a }
{
    [
        [a[0][4], a[0][5], a[0][6], a[0][7]],
        [a[1][4], a[1][5], a[1][6], a[1][7]],
        [a[2][4], a[2][5], a[2][6], a[2][7]],
        [a[3][4], a[3][5], a[3][6], a[3][7]],
    ]
}

// The inverse of a matrix, if it has one, by Gauss-Jordan elimination, with the first usable row as pivot.
pub fn invert_4x4(m: [[f64; 4]; 4]) -> Option<[[f64; 4]; 4]>
    ensures { result ≡ shown (inverse m) }
{
    let mut a = with_identity(m);
    for i in 0..4 {
        let k = pivot_row(a, i)?;
        let b = eliminate(a, i, k);
        a = b;
    }
    Some(right_half(a))
}
