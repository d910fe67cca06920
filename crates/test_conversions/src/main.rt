// Runs conversions and prints what each leaves: readings, all pairs at the ends of the range, boundaries, a curve that is not kept,
// and the elimination beside its constants.
#![tactic(auto)]

use basis::Basis;
use error::Refusal;

// Prints a word.
fn say(w: &[u8]) {
    io::write_all(1, w);
}

// Prints a double's bits, on a line of its own.
fn say_double(x: f64) {
    let mut line = [10u8; 17];
    let mut pen = text::Pen::new(&mut line, 0);
    pen.double(x);
    io::write_all(1, &line);
}

// Prints what a conversion answered.
fn say_answer(c: Result<usize, Refusal>) {
    match c {
        Ok(n) => {
            say(b"written ");
            io::print_decimal(1, n as u64);
        }
        Err(r) => {
            say(b"refused ");
            io::print_decimal(1, error::number(r) as u64);
        }
    }
    say(b"\n");
}

fn say_all(out: &[f64]) {
    for x in out {
        say_double(*x);
    }
}

// Converts, and prints the answer.
fn one(from: Basis, to: Basis, knots: &[f64], out: &mut [f64]) {
    say_answer(convert::convert_spline(from, to, knots, out));
}

// Places that were not written still hold seven.
fn readings() {
    let mut nine = [7.0; 9];
    let mut twelve = [7.0; 12];
    let knots = [0.0, 1.0, 3.0, 2.0, 2.0, 5.0];
    say(b"three segments, CatmullRom to Bezier, twelve places\n");
    one(Basis::CatmullRom, Basis::Bezier, &knots, &mut twelve);
    say_all(&twelve);
    say(b"nine places\n");
    one(Basis::CatmullRom, Basis::Bezier, &knots, &mut nine);
    say_all(&nine);
}

// Sixteen knots suit every basis: 12 is a multiple of 1, 2, 3 and 4.
fn pair(from: Basis, to: Basis) {
    let big = 1099511627776.0;
    let knots = [
        big, -big, big, -big, -big, big, -big, big, 0.1, -0.0, big, big, -big, -big, 1.0, big,
    ];
    let mut out = [0.0; 52];
    say_answer(convert::convert_spline(from, to, &knots, &mut out));
    if out.iter().all(|x| x.is_finite()) {
        say(b"finite\n");
    } else {
        say(b"not finite\n");
    }
}

// One pair of bases, and the numbers that they are told by.
fn pair_at(i: usize, from: Basis, j: usize, to: Basis) {
    say(b"pair ");
    io::print_decimal(1, i as u64);
    say(b" ");
    io::print_decimal(1, j as u64);
    say(b" ");
    pair(from, to);
}

// The six bases.
const BASES: [Basis; 6] = [
    Basis::Bspline,
    Basis::Bezier,
    Basis::CatmullRom,
    Basis::Hermite,
    Basis::Linear,
    Basis::Power,
];

// Every pair of bases.
fn pairs() {
    for (i, from) in BASES.iter().enumerate() {
        for (j, to) in BASES.iter().enumerate() {
            pair_at(i, *from, j, *to);
        }
    }
}

// Each line has the faults of those below it too: the first row that applies is told.
fn order() {
    say(b"refusals in order\n");
    let inf = 1.0e308 * 10.0;
    let three = [inf, inf, inf];
    let five = [inf, 0.0, 0.0, 0.0, 0.0];
    let seven = [inf, 0.0, 0.0, 0.0, 0.0, 0.0, 0.0];
    let mut none = [0.0; 3];
    one(Basis::Bezier, Basis::Linear, &three, &mut none);
    one(Basis::Bezier, Basis::Linear, &five, &mut none);
    one(Basis::Bezier, Basis::Linear, &seven, &mut none);
    one(Basis::Bezier, Basis::Hermite, &seven, &mut none);
    let mut six = [0.0; 6];
    one(Basis::Bezier, Basis::Hermite, &seven, &mut six);
    say_all(&six);
}

// Lengths and knots at their limits, and just beyond.
fn lengths() {
    say(b"lengths and knots at the boundaries\n");
    let mut out = [0.0; 4096];
    let full = [1.0; 4096];
    let over = [1.0; 4097];
    one(Basis::Linear, Basis::CatmullRom, &full, &mut out);
    one(Basis::Linear, Basis::CatmullRom, &over, &mut out);
    one(Basis::Linear, Basis::Hermite, &full, &mut out);
    let bound = [1099511627776.0, 0.0, 0.0, 0.0];
    let above = [1099511627776.000244140625, 0.0, 0.0, 0.0];
    one(Basis::Bezier, Basis::Power, &bound, &mut out);
    one(Basis::Bezier, Basis::Power, &above, &mut out);
}

// Prints what an evaluation answered.
fn say_value(e: Result<f64, Refusal>) {
    match e {
        Ok(v) => say_double(v),
        Err(r) => {
            io::print_decimal(1, error::number(r) as u64);
        }
    }
}

// A Bezier curve with a kink at its seam, and what its conversion to Hermite draws.
fn kink() {
    say(b"a kink: Bezier, then Hermite at the same places\n");
    let knots = [0.0, 0.0, 0.0, 0.0, 1.0, 1.0, 1.0];
    let mut out = [0.0; 6];
    one(Basis::Bezier, Basis::Hermite, &knots, &mut out);
    say_all(&out);
    say_value(spline::spline(Basis::Bezier, 0.625, &knots));
    say_value(spline::spline(Basis::Hermite, 0.625, &out));
    say_value(spline::spline(Basis::Bezier, 0.75, &knots));
    say_value(spline::spline(Basis::Hermite, 0.75, &out));
}

// Whether two doubles have the same bits.
fn same(a: f64, b: f64) -> bool {
    text::to_bits(a) == text::to_bits(b)
}

fn same_row(a: &[f64; 4], b: &[f64; 4]) -> bool {
    a.iter().zip(b).all(|(x, y)| same(*x, *y))
}

// The elimination is run, and what it gives is held to the constants, bit for bit: to zeros where there is no inverse.
fn eliminated(b: Basis) {
    let e = convert_elimination::invert_4x4(basis::basis_macros::matrix(b));
    let c = convert_matrix::inverse_of(b);
    say(if e.is_some() { b"inverse" } else { b"none" });
    let rows = e.unwrap_or([[0.0; 4]; 4]);
    if rows.iter().zip(&c).all(|(x, y)| same_row(x, y)) {
        say(b", the same bits\n");
    } else {
        say(b", other bits\n");
    }
}

// Each inverse by elimination, beside its constants.
fn inverses() {
    say(b"the six inverses by elimination, beside the constants\n");
    for b in &BASES {
        eliminated(*b);
    }
}

fn main() {
    readings();
    pairs();
    order();
    lengths();
    kink();
    inverses();
}
