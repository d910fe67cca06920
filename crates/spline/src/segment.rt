// The value of one segment: its row sums once, then the cubic.
ghost use Rattle.std.specs.Prelude.{◌≡◌, ◌≤◌, length};
ghost use Rattle.basis.specs.Basis.{matrix_of};
ghost use Rattle.spline.specs.Segment.{row_sums_of, horner_of, segment_value};

use crate::RowSums;
use basis::Basis;
use basis::basis_macros::by_basis;

// The four sums of knots times a row of the matrix: the cubic's coefficients.
pub fn sums(m: [[f64; 4]; 4], cv: &[f64]) -> RowSums
    requires { 4 ≤ length cv.now }
    ensures { result ≡ row_sums_of m cv.now }
{
    let c0 = cv[0];
    let c1 = cv[1];
    let c2 = cv[2];
    let c3 = cv[3];
    RowSums {
        w0: c0 * m[0][0] + c1 * m[0][1] + c2 * m[0][2] + c3 * m[0][3],
        w1: c0 * m[1][0] + c1 * m[1][1] + c2 * m[1][2] + c3 * m[1][3],
        w2: c0 * m[2][0] + c1 * m[2][1] + c2 * m[2][2] + c3 * m[2][3],
        w3: c0 * m[3][0] + c1 * m[3][1] + c2 * m[3][2] + c3 * m[3][3],
    }
}

// The cubic's value at t.
pub fn horner(w: RowSums, t: f64) -> f64
    ensures { result ≡ horner_of w t }
{
    ((w.w0 * t + w.w1) * t + w.w2) * t + w.w3
}

// The row sums by the matrix of the basis.
pub fn row_sums(b: Basis, cv: &[f64]) -> RowSums
    requires { 4 ≤ length cv.now }
    ensures { result ≡ row_sums_of (matrix_of b) cv.now }
{
    by_basis(b, |terms| sums(terms.matrix, cv))
}

// The segment whose four knots stand at the front of cv. Inlined where it is called, so that no row sum goes through memory.
#[inline(always)]
pub fn segment_value(b: Basis, cv: &[f64], t: f64) -> f64
    requires { 4 ≤ length cv.now }
    ensures { result ≡ segment_value (matrix_of b) cv.now t }
{
    by_basis(b, |terms| horner(sums(terms.matrix, cv), t))
}
