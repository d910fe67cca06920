// The worked readings, run by the calls and printed, a line each. Those of specs/Readings.antt are proved too; the last three are only run.
#![tactic(auto)]

use basis::Basis;
use error::Refusal;
use inverse::Options;
use inverse_order::EndsBy;
use inverse_segment::{Ground, Method, Miss, Place};

// Prints a word.
fn say(w: &[u8]) {
    io::write_all(1, w);
}

// Prints a double's bits, behind a blank.
fn say_double(x: f64) {
    let mut word = [b' '; 17];
    let mut pen = text::Pen::new(&mut word, 1);
    pen.double(x);
    io::write_all(1, &word);
}

fn say_all(out: &[f64]) {
    for x in out {
        say_double(*x);
    }
}

// The number; 4 and 10 tell the knot too.
fn say_refused(r: Refusal) {
    let reply = error::reply(r);
    let number = reply % 256;
    say(b"refused ");
    io::print_decimal(1, number as u64);
    if number == 4 || number == 10 {
        say(b" at ");
        io::print_decimal(1, (reply / 256) as u64);
    }
    say(b"\n");
}

// Evaluates, and prints the answer.
fn value(b: Basis, knots: &[f64], x: f64) {
    let e = spline::spline(b, x, knots);
    match e {
        Ok(v) => {
            say(b"value");
            say_double(v);
            say(b"\n");
        }
        Err(r) => say_refused(r),
    }
}

// Prints the word for a ground.
fn say_ground(g: Ground) {
    match g {
        Ground::End => say(b" end "),
        Ground::Edge => say(b" edge "),
        Ground::Value => say(b" value "),
        Ground::Width => say(b" width "),
        Ground::Spent => say(b" spent "),
    }
}

// Prints what an inversion answered.
fn say_place(a: Result<Place, Miss>) {
    match a {
        Ok(p) => {
            say(b"place");
            say_double(p.parameter);
            let g = p.ground;
            say_ground(g);
            io::print_decimal(1, p.count as u64);
            say(b"\n");
        }
        Err(Miss::OffCurve(n)) => {
            say(b"refused 11 after ");
            io::print_decimal(1, n as u64);
            say(b"\n");
        }
        Err(Miss::Refused(r)) => say_refused(r),
    }
}

// Inverts, and prints the answer.
fn place(b: Basis, knots: &[f64], y: f64, check: bool, precision: f64) {
    say_place(inverse::spline_inverse_with(b, y, knots, check, 32, precision));
}

// By the curve's own ends.
fn own_place(b: Basis, knots: &[f64], y: f64) {
    let o = Options {
        check: true,
        limit: 32,
        precision: 1e-10,
        ends: EndsBy::Curve,
        method: Method::AsCrate,
    };
    say_place(inverse::spline_inverse_by(o, b, y, knots));
}

// The bracket that four rounds leave.
fn bracket(b: Basis, cv: &[f64], y: f64, how: Method) {
    let a = inverse_segment::spline_inverse_segment_by(b, y, cv, 4, 1e-10, how);
    let Ok(p) = a else {
        return;
    };
    say(b"bracket");
    say_double(p.lower);
    say_double(p.upper);
    let g = p.ground;
    say_ground(g);
    io::print_decimal(1, p.count as u64);
    say(b"\n");
}

// Converts, and prints the answer with the whole output.
fn converted(from: Basis, to: Basis, knots: &[f64], out: &mut [f64]) {
    let c = convert::convert_spline(from, to, knots, &mut *out);
    match c {
        Ok(n) => {
            say(b"written ");
            io::print_decimal(1, n as u64);
            say_all(&out[..]);
            say(b"\n");
        }
        Err(r) => say_refused(r),
    }
}

fn values() {
    let hours = [-0.4, 0.0, 0.4, 0.5, 0.9, 1.0, 1.9];
    value(Basis::CatmullRom, &hours, 0.25);
    let ones = [1.0; 4097];
    value(Basis::Bezier, &ones[0..4], 0.5);
    value(Basis::Bezier, &ones[0..7], 0.5);
    value(Basis::Bezier, &ones[0..3], 0.5);
    value(Basis::Bezier, &ones[0..5], 0.5);
    value(Basis::Bezier, &ones[0..11], 0.5);
    value(Basis::Linear, &ones[0..4096], 0.5);
    value(Basis::Linear, &ones, 0.5);
    let bound = [1099511627776.0; 4];
    let beyond = [1099511627776.000244140625; 4];
    value(Basis::Linear, &bound, 0.5);
    value(Basis::Linear, &beyond, 0.5);
}

fn places() {
    let half = [0.0, 0.0, 0.5, 0.5];
    place(Basis::Linear, &half, 0.25, true, 1e-10);
    let one = [0.0, 0.0, 1.0, 1.0];
    place(Basis::Linear, &one, 0.125, true, 0.125);
    place(Basis::Linear, &one, 0.25, true, 0.125);
    let flat = [0.0, 0.5, 0.5, 1.0];
    place(Basis::Bezier, &flat, 0.25, false, 1e-10);
    place(Basis::Bezier, &flat, 0.25, true, 1e-10);
    let back = [0.0, 0.0, 3.0, 2.0, 5.0, 5.0];
    place(Basis::CatmullRom, &back, 1.0, true, 1e-10);
    let six = [
        0.0, 0.0, 6.0, 12.0, 18.0, 24.0, 30.0, 36.0, 42.0, 48.0, 54.0, 60.0, 66.0, 72.0, 78.0, 84.0,
    ];
    place(Basis::Bspline, &six, 0.5, true, 1e-10);
    own_place(Basis::Bspline, &six, 0.5);
    place(Basis::Bspline, &six[0..15], 0.5, true, 1e-10);
}

fn brackets() {
    let square = [0.0, 1.0, 0.0, 0.0];
    bracket(Basis::Power, &square, 0.25, Method::AsCrate);
    bracket(Basis::Power, &square, 0.25, Method::Taught);
    bracket(Basis::Power, &square, 0.25, Method::Steady);
}

fn conversions() {
    let mut four = [0.0; 4];
    let rise = [0.0, 0.0, 0.0, 1.0];
    converted(Basis::Bezier, Basis::Power, &rise, &mut four);
    let line = [9.0, 1.0, 3.0, 9.0];
    converted(Basis::Linear, Basis::Power, &line, &mut four);
    let mut six = [0.0; 6];
    let kink = [0.0, 0.0, 0.0, 0.0, 1.0, 1.0, 1.0];
    converted(Basis::Bezier, Basis::Hermite, &kink, &mut six);
}

// Both ends lie near the target, and the left edge comes first; ten doubles, for which nine places are too few.
fn others() {
    let one = [0.0, 0.0, 1.0, 1.0];
    place(Basis::Linear, &one, 0.5, true, 1.0);
    let knots = [0.0, 1.0, 3.0, 2.0, 2.0, 5.0];
    let mut ten = [0.0; 10];
    converted(Basis::CatmullRom, Basis::Bezier, &knots, &mut ten);
    let mut nine = [0.0; 9];
    converted(Basis::CatmullRom, Basis::Bezier, &knots, &mut nine);
}

fn main() {
    values();
    places();
    brackets();
    conversions();
    others();
}
