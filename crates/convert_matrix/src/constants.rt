// The inverses of the five matrices that have one: the very doubles that the elimination yields, signs of zero among them.
ghost use Rattle.std.specs.Prelude.{◌≡◌};
ghost use Rattle.basis.specs.declared.Basis.TheVariants.{Bspline, Bezier, CatmullRom, Hermite, Linear, Power};
ghost use Rattle.convert_matrix.specs.Elimination.{inverse_of};

const BSPLINE: [[f64; 4]; 4] = [
    [
        -8.881784197001252e-16,
        0.6666666666666665,
        -0.9999999999999996,
        1.0000000000000004,
    ],
    [
        -8.881784197001252e-16,
        -0.3333333333333335,
        4.440892098500626e-16,
        1.0000000000000004,
    ],
    [
        -8.881784197001252e-16,
        0.6666666666666665,
        1.0000000000000004,
        1.0000000000000004,
    ],
    [
        5.999999999999999,
        3.6666666666666665,
        2.0000000000000004,
        1.0000000000000004,
    ],
];

// The inverse of each basis's matrix, as the elimination yields it. Linear's matrix has none.
// A function for each: with the constants themselves in the arms of `inverse_of` a conversion's matrix took 33 ns for 29.
pub fn bspline() -> [[f64; 4]; 4]
    ensures { result ≡ inverse_of Bspline }
{
    BSPLINE
}

const BEZIER: [[f64; 4]; 4] = [
    [0.0, 0.0, 0.0, 1.0],
    [0.0, 0.0, 0.33333333333333337, 1.0],
    [0.0, 0.33333333333333337, 0.6666666666666667, 1.0],
    [1.0, 1.0, 1.0, 1.0],
];

pub fn bezier() -> [[f64; 4]; 4]
    ensures { result ≡ inverse_of Bezier }
{
    BEZIER
}

const CATMULL_ROM: [[f64; 4]; 4] = [
    [1.0, 1.0, -1.0, 1.0],
    [0.0, 0.0, 0.0, 1.0],
    [1.0, 1.0, 1.0, 1.0],
    [6.0, 4.0, 2.0, 1.0],
];

pub fn catmull_rom() -> [[f64; 4]; 4]
    ensures { result ≡ inverse_of CatmullRom }
{
    CATMULL_ROM
}

const HERMITE: [[f64; 4]; 4] = [
    [0.0, 0.0, 0.0, 1.0],
    [0.0, 0.0, 1.0, 0.0],
    [1.0, 1.0, 1.0, 1.0],
    [3.0, 2.0, 1.0, 0.0],
];

pub fn hermite() -> [[f64; 4]; 4]
    ensures { result ≡ inverse_of Hermite }
{
    HERMITE
}

const POWER: [[f64; 4]; 4] = [
    [1.0, 0.0, 0.0, 0.0],
    [0.0, 1.0, 0.0, 0.0],
    [0.0, 0.0, 1.0, 0.0],
    [0.0, 0.0, 0.0, 1.0],
];

pub fn power() -> [[f64; 4]; 4]
    ensures { result ≡ inverse_of Power }
{
    POWER
}

// Linear has none: zeros stand for it, and no conversion reads them.
const NONE: [[f64; 4]; 4] = [
    [0.0, 0.0, 0.0, 0.0],
    [0.0, 0.0, 0.0, 0.0],
    [0.0, 0.0, 0.0, 0.0],
    [0.0, 0.0, 0.0, 0.0],
];

pub fn none() -> [[f64; 4]; 4]
    ensures { result ≡ inverse_of Linear }
{
    NONE
}
