// The six bases by their terms, and the one match on the basis. Rust: src/basis_macros.rs.
ghost use Rattle.std.specs.Prelude.{◌≡◌};
ghost use Rattle.basis.specs.Basis.{matrix_of, terms_of};
ghost use Rattle.basis.specs.declared.Basis.TheVariants.{Bspline, Bezier, CatmullRom, Hermite, Linear, Power};

use crate::{Basis, Terms};

// A basis as a type. What is written once for all of them is compiled for each, and there its step and its matrix are constants.
pub trait Known {
    ghost use Rattle.basis.specs.declared.Basis.{Basis};

    ghost basis: { Basis };

    fn terms() -> Terms
        ensures { result ≡ terms_of basis };
}

const BSPLINE: Terms = Terms {
    step: 1,
    matrix: [
        [-1.0 / 6.0, 3.0 / 6.0, -3.0 / 6.0, 1.0 / 6.0],
        [3.0 / 6.0, -6.0 / 6.0, 3.0 / 6.0, 0.0 / 6.0],
        [-3.0 / 6.0, 0.0 / 6.0, 3.0 / 6.0, 0.0 / 6.0],
        [1.0 / 6.0, 4.0 / 6.0, 1.0 / 6.0, 0.0 / 6.0],
    ],
};

pub struct Bspline;

impl Known for Bspline {
    ghost basis = { Bspline };

    fn terms() -> Terms {
        BSPLINE
    }
}

const BEZIER: Terms = Terms {
    step: 3,
    matrix: [
        [-1.0, 3.0, -3.0, 1.0],
        [3.0, -6.0, 3.0, 0.0],
        [-3.0, 3.0, 0.0, 0.0],
        [1.0, 0.0, 0.0, 0.0],
    ],
};

pub struct Bezier;

impl Known for Bezier {
    ghost basis = { Bezier };

    fn terms() -> Terms {
        BEZIER
    }
}

const CATMULL_ROM: Terms = Terms {
    step: 1,
    matrix: [
        [-1.0 / 2.0, 3.0 / 2.0, -3.0 / 2.0, 1.0 / 2.0],
        [2.0 / 2.0, -5.0 / 2.0, 4.0 / 2.0, -1.0 / 2.0],
        [-1.0 / 2.0, 0.0 / 2.0, 1.0 / 2.0, 0.0 / 2.0],
        [0.0 / 2.0, 2.0 / 2.0, 0.0 / 2.0, 0.0 / 2.0],
    ],
};

pub struct CatmullRom;

impl Known for CatmullRom {
    ghost basis = { CatmullRom };

    fn terms() -> Terms {
        CATMULL_ROM
    }
}

const HERMITE: Terms = Terms {
    step: 2,
    matrix: [
        [2.0, 1.0, -2.0, 1.0],
        [-3.0, -2.0, 3.0, -1.0],
        [0.0, 1.0, 0.0, 0.0],
        [1.0, 0.0, 0.0, 0.0],
    ],
};

pub struct Hermite;

impl Known for Hermite {
    ghost basis = { Hermite };

    fn terms() -> Terms {
        HERMITE
    }
}

const LINEAR: Terms = Terms {
    step: 1,
    matrix: [
        [0.0, 0.0, 0.0, 0.0],
        [0.0, 0.0, 0.0, 0.0],
        [0.0, -1.0, 1.0, 0.0],
        [0.0, 1.0, 0.0, 0.0],
    ],
};

pub struct Linear;

impl Known for Linear {
    ghost basis = { Linear };

    fn terms() -> Terms {
        LINEAR
    }
}

const POWER: Terms = Terms {
    step: 4,
    matrix: [
        [1.0, 0.0, 0.0, 0.0],
        [0.0, 1.0, 0.0, 0.0],
        [0.0, 0.0, 1.0, 0.0],
        [0.0, 0.0, 0.0, 1.0],
    ],
};

pub struct Power;

impl Known for Power {
    ghost basis = { Power };

    fn terms() -> Terms {
        POWER
    }
}

// What f makes of the basis's terms: a call for each basis, so that in each the step and the matrix are constants. Always inlined: a
// segment's value took a fifth longer without.
#[inline(always)]
pub fn by_basis<R, F: FnOnce(Terms) -> R>(b: Basis, f: F) -> R
    requires { F.pre f (terms_of b) }
    ensures { F.post f (terms_of b) result }
{
    match b {
        Basis::Bspline => f(Bspline::terms()),
        Basis::Bezier => f(Bezier::terms()),
        Basis::CatmullRom => f(CatmullRom::terms()),
        Basis::Hermite => f(Hermite::terms()),
        Basis::Linear => f(Linear::terms()),
        Basis::Power => f(Power::terms()),
    }
}

// The matrix by which a segment of this basis is evaluated.
pub fn matrix(b: Basis) -> [[f64; 4]; 4]
    ensures { result ≡ matrix_of b }
{
    by_basis(
        b,
        |t| -> [[f64; 4]; 4]
            ensures { result ≡ t.matrix }
        { t.matrix },
    )
}
