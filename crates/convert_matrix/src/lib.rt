// The matrix of a conversion, by value: the inverses as constants, and the product. Rust: src/convert.rs.
#![tactic(auto)]

ghost use Rattle.std.specs.Prelude.{◌≡◌, ◌<◌};
ghost use Rattle.convert_matrix.specs.Matrix.{row, row_times};
ghost use Rattle.convert_matrix.specs.Elimination.{inverse_of, conversion_of};

use basis::Basis;

pub mod constants;

// A row times a matrix.
fn mul_row(r: [f64; 4], b: [[f64; 4]; 4]) -> [f64; 4]
    ensures { result ≡ row_times r b }
{
    [
        r[0] * b[0][0] + r[1] * b[1][0] + r[2] * b[2][0] + r[3] * b[3][0],
        r[0] * b[0][1] + r[1] * b[1][1] + r[2] * b[2][1] + r[3] * b[3][1],
        r[0] * b[0][2] + r[1] * b[1][2] + r[2] * b[2][2] + r[3] * b[3][2],
        r[0] * b[0][3] + r[1] * b[1][3] + r[2] * b[2][3] + r[3] * b[3][3],
    ]
}

// The inverse of a basis's matrix: whoever needs it takes it from here.
pub fn inverse_of(b: Basis) -> [[f64; 4]; 4]
    ensures { result ≡ inverse_of b }
{
    match b {
        Basis::Bspline => constants::bspline(),
        Basis::Bezier => constants::bezier(),
        Basis::CatmullRom => constants::catmull_rom(),
        Basis::Hermite => constants::hermite(),
        Basis::Linear => constants::none(),
        Basis::Power => constants::power(),
    }
}

// Row i of the inverse.
fn inverse_row(b: Basis, i: usize) -> [f64; 4]
    requires { i < 4 }
    ensures { result ≡ row (inverse_of b) i }
{
    let m = inverse_of(b);
    m[i]
}

// Row by row: all sixteen doubles of the inverse at once would go through the stack.
pub fn conversion_matrix(from: Basis, to: Basis) -> [[f64; 4]; 4]
    ensures { result ≡ conversion_of from to }
{
    let b = basis::basis_macros::matrix(from);
    let r0 = mul_row(inverse_row(to, 0), b);
    let r1 = mul_row(inverse_row(to, 1), b);
    let r2 = mul_row(inverse_row(to, 2), b);
    let r3 = mul_row(inverse_row(to, 3), b);
    [r0, r1, r2, r3]
}
