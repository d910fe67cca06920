// Evaluation on bad input: lengths, parameters, knots, and several faults at once. `taken` stands for a value.
#![tactic(auto)]

ghost use Rattle.std.specs.Prelude.{◌+◌, ◌≤◌, ◌<◌, length};

use basis::Basis;
use error::Refusal;

fn put(s: &[u8]) {
    io::write_all(1, s);
}

fn put_name(b: Basis) {
    match b {
        Basis::Bspline => put(b"Bspline "),
        Basis::Bezier => put(b"Bezier "),
        Basis::CatmullRom => put(b"CatmullRom "),
        Basis::Hermite => put(b"Hermite "),
        Basis::Linear => put(b"Linear "),
        Basis::Power => put(b"Power "),
    }
}

fn put_reply(e: Result<f64, Refusal>) {
    match e {
        Ok(_) => put(b"taken\n"),
        Err(r) => {
            put(b"refused ");
            io::print_decimal(1, error::number(r) as u64);
            put(b"\n");
        }
    }
}

// The value's bits, or the refusal.
fn put_value(e: Result<f64, Refusal>) {
    match e {
        Ok(x) => {
            put(b"value ");
            io::print_hex(1, text::to_bits(x), 16);
            put(b"\n");
        }
        Err(_) => put_reply(e),
    }
}

fn curve_lengths(b: Basis, from: usize, end: usize, knots: &[f64])
    requires { end ≤ length knots.now + 1 }
{
    for n in from..end {
        put_name(b);
        io::print_decimal(1, n as u64);
        put(b" ");
        put_reply(spline::spline(b, 0.5, &knots[0..n]));
    }
}

fn segment_lengths(b: Basis, end: usize, knots: &[f64])
    requires { end ≤ length knots.now + 1 }
{
    for n in 0..end {
        put_name(b);
        put(b"segment ");
        io::print_decimal(1, n as u64);
        put(b" ");
        put_reply(spline::spline_segment(b, 0.5, &knots[0..n]));
    }
}

fn lengths(b: Basis) {
    let knots = [1.0; 4100];
    curve_lengths(b, 0, 21, &knots);
    curve_lengths(b, 4095, 4101, &knots);
    segment_lengths(b, 21, &knots);
}

// A curve and a segment of Linear, which gives back a parameter from 0 to 1.
fn parameter(x: f64) {
    let knots = [0.0, 0.0, 1.0, 1.0];
    put(b"curve at ");
    io::print_hex(1, text::to_bits(x), 16);
    put(b" ");
    put_value(spline::spline(Basis::Linear, x, &knots));
    put(b"segment at ");
    io::print_hex(1, text::to_bits(x), 16);
    put(b" ");
    put_value(spline::spline_segment(Basis::Linear, x, &knots));
}

fn parameters() {
    parameter(0.0 / 0.0);
    parameter(1.0 / 0.0);
    parameter(-1.0 / 0.0);
    parameter(-0.0);
    parameter(0.0);
    parameter(1.0);
    parameter(1.0000000000000002);
    parameter(-5e-324);
    parameter(-7.5);
}

// 16 knots suit every basis; one of them is v.
fn knot_at(b: Basis, i: usize, v: f64)
    requires { i < 16 }
{
    let mut knots = [1.0; 16];
    knots[i] = v;
    put_name(b);
    put(b"knot ");
    io::print_decimal(1, i as u64);
    put(b" ");
    io::print_hex(1, text::to_bits(v), 16);
    put(b" ");
    put_reply(spline::spline(b, 0.5, &knots));
}

fn knots(b: Basis, v: f64) {
    for i in 0..16 {
        knot_at(b, i, v);
    }
}

fn bad_knots(b: Basis) {
    knots(b, 0.0 / 0.0);
    knots(b, 1.0 / 0.0);
    knots(b, -1.0 / 0.0);
    knots(b, 1099511627776.0);
    knots(b, 1099511627776.0002);
    knots(b, -1099511627776.0);
    knots(b, -1099511627776.0002);
}

// Several faults at once: the first row of the table that applies is told.
fn together() {
    let nan = 0.0 / 0.0;
    let bad = [nan; 4100];
    put_reply(spline::spline(Basis::Bezier, nan, &bad[0..3]));
    put_reply(spline::spline(Basis::Bezier, nan, &bad[0..5]));
    put_reply(spline::spline(Basis::Bezier, nan, &bad[0..4098]));
    put_reply(spline::spline(Basis::Bezier, nan, &bad[0..4099]));
    put_reply(spline::spline(Basis::Bezier, nan, &bad[0..4]));
    put_reply(spline::spline(Basis::Bezier, 0.5, &bad[0..4]));
    put_reply(spline::spline_segment(Basis::Bezier, nan, &bad[0..3]));
    put_reply(spline::spline_segment(Basis::Bezier, nan, &bad[0..5]));
    put_reply(spline::spline_segment(Basis::Bezier, nan, &bad[0..4]));
    put_reply(spline::spline_segment(Basis::Bezier, 0.5, &bad[0..4]));
}

fn of_basis(b: Basis) {
    lengths(b);
    bad_knots(b);
}

fn main() {
    of_basis(Basis::Bspline);
    of_basis(Basis::Bezier);
    of_basis(Basis::CatmullRom);
    of_basis(Basis::Hermite);
    of_basis(Basis::Linear);
    of_basis(Basis::Power);
    parameters();
    together();
}
