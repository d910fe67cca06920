// The six bases, with STEP, the length rule and the matrices. Rust: src/basis.rs.
#![tactic(auto)]

ghost use Rattle.std.specs.Prelude.{◌≡◌, ◌≤◌, ◌<◌};
ghost use Rattle.basis.specs.Basis.{step_of, regular, length_ok, segments_of, is_linear};

pub mod basis_macros;

// The most knots that a call takes.
pub const MOST_KNOTS: usize = 4096;

#[derive(Clone, Copy)]
pub enum Basis {
    Bspline,
    Bezier,
    CatmullRom,
    Hermite,
    Linear,
    Power,
}

// What tells one basis from another: knots from one segment's first knot to the next one's, and the matrix by which a segment is evaluated.
#[derive(Clone, Copy)]
pub struct Terms {
    pub step: usize,
    pub matrix: [[f64; 4]; 4],
}

// Knots from one segment's first knot to the next one's.
pub fn step(b: Basis) -> usize
    ensures answer { result ≡ step_of b }
    ensures positive { 0 < result }
    ensures most { result ≤ 4 }
{
    basis_macros::by_basis(b, |t| t.step)
}

// Whether n knots, four at least, come in whole steps.
pub fn is_regular(b: Basis, n: usize) -> bool
    requires { 4 ≤ n }
    ensures { result ≡ regular b n }
{
    let m = n - 4;
    basis_macros::by_basis(b, |t| m % t.step == 0)
}

// Whether n knots suit the basis.
pub fn is_len_ok(b: Basis, n: usize) -> bool
    ensures { result ≡ length_ok b n }
{
    if n < 4 {
        return false;
    }
    is_regular(b, n)
}

// How many segments n knots make.
pub fn segments(b: Basis, n: usize) -> usize
    requires { 4 ≤ n }
    ensures { result ≡ segments_of b n }
{
    let m = n - 4;
    basis_macros::by_basis(b, |t| m / t.step + 1)
}

// Whether the basis is the one whose matrix has no inverse.
pub fn is_linear(b: Basis) -> bool
    ensures { result ≡ is_linear b }
{
    matches!(b, Basis::Linear)
}
