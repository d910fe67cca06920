// Many inversions, every answer judged by evaluating again: of curves and of single segments, by either rule of the ends, by each method.
// Prints how many answers there were of each kind, and how many of them broke a promise.
#![tactic(auto)]

ghost use Rattle.std.specs.Prelude.{◌≡◌, ◌<◌, ◌≤◌, length};

use basis::Basis;
use inverse::Options;
use inverse_order::EndsBy;
use inverse_segment::{Ground, Method, Miss, Place};

// What is asked of a curve of k segments, each `step` knots after the one before.
#[derive(Clone, Copy)]
struct Question {
    b: Basis,
    step: usize,
    k: usize,
    o: Options,
}

// The answers of each kind: the five grounds, off the curve, the other refusals; what broke a promise; and the greatest count.
#[derive(Clone, Copy)]
struct Tally {
    end: u32,
    edge: u32,
    value: u32,
    width: u32,
    spent: u32,
    off_curve: u32,
    refused: u32,
    broken: u32,
    most: u32,
}

// One more.
fn note(n: &mut u32) {
    *n = n.wrapping_add(1);
}

// Counts a promise that was broken.
fn judge(tally: &mut Tally, kept: bool) {
    if !kept {
        note(&mut tally.broken);
    }
}

// Holds a count to its bound, and keeps the largest count.
fn judge_count(tally: &mut Tally, n: u32, bound: u32) {
    judge(tally, n <= bound);
    tally.most = n.max(tally.most);
}

// Counts a place by its ground.
fn note_ground(tally: &mut Tally, g: Ground) {
    match g {
        Ground::End => note(&mut tally.end),
        Ground::Edge => note(&mut tally.edge),
        Ground::Value => note(&mut tally.value),
        Ground::Width => note(&mut tally.width),
        Ground::Spent => note(&mut tally.spent),
    }
}

// The segment s at x, evaluated again; NaN where there is no such segment.
fn again(b: Basis, step: usize, s: usize, x: f64, knots: &[f64]) -> f64 {
    if s < 4096 {
        if step <= 4 {
            let start = s * step;
            let end = start + 4;
            if end <= knots.len() {
                let v = spline::spline_segment(b, x, &knots[start..end]);
                if let Ok(r) = v {
                    return r;
                }
            }
        }
    }
    0.0 / 0.0
}

fn lies_between(v: f64, y: f64, w: f64) -> bool {
    (v <= y && y <= w) || (w <= y && y <= v)
}

// Whether the parameter and the bracket lie from 0 to 1, and the local place in the bracket.
fn places_kept(p: Place) -> bool {
    let parameter = 0.0 <= p.parameter && p.parameter <= 1.0;
    let bracket = 0.0 <= p.lower && p.upper <= 1.0;
    let local = p.lower <= p.local && p.local <= p.upper;
    parameter && bracket && local
}

// What the rule of the ends evaluates.
fn for_ends(e: EndsBy) -> u32 {
    match e {
        EndsBy::Knots => 0,
        EndsBy::Curve => 2,
    }
}

// The end rule: nothing else was evaluated, and all places are the curve's start or its end.
fn end_kept(p: Place, e: EndsBy, k: usize) -> bool {
    let same = p.lower == p.local && p.upper == p.local && p.parameter == p.local;
    let start = p.segment == 0 && p.local == 0.0;
    let end = p.segment < k && k - p.segment == 1 && p.local == 1.0;
    p.count == for_ends(e) && same && (start || end)
}

// The steady method is spent only by fewer than 40 rounds, or by a precision below 1e-10.
fn may_be_spent(o: Options) -> bool {
    let how = o.method;
    match how {
        Method::AsCrate => true,
        Method::Taught => true,
        Method::Steady => o.limit < 40 || o.precision < 1e-10,
    }
}

// Whether the answer keeps what its ground promises.
fn ground_kept(a: Question, y: f64, p: Place, v: f64) -> bool {
    let apart = doubles::magnitude(v - y);
    let ground = p.ground;
    let o = a.o;
    let ends = o.ends;
    match ground {
        Ground::End => end_kept(p, ends, a.k),
        Ground::Edge => apart < 2.0 * o.precision && (p.local == 0.0 || p.local == 1.0),
        Ground::Value => apart < o.precision,
        Ground::Width => p.upper - p.lower < o.precision,
        Ground::Spent => (o.limit as u32) + 2 <= p.count && may_be_spent(o),
    }
}

// A place: its parts lie in 0 to 1, the values at the bracket's ends enclose the target, and the ground holds.
fn judge_place(a: Question, y: f64, p: Place, bound: u32, knots: &[f64], tally: &mut Tally) {
    let ground = p.ground;
    note_ground(tally, ground);
    judge_count(tally, p.count, bound);
    judge(tally, places_kept(p));
    let b = a.b;
    let v = again(b, a.step, p.segment, p.local, knots);
    judge(tally, ground_kept(a, y, p, v));
    if let Ground::End = ground {
        return;
    }
    let v0 = again(b, a.step, p.segment, p.lower, knots);
    let v1 = again(b, a.step, p.segment, p.upper, knots);
    judge(tally, lies_between(v0, y, v1));
}

// Holds one answer to all that is promised of it.
fn judge_answer(
    a: Question,
    y: f64,
    r: Result<Place, Miss>,
    bound: u32,
    knots: &[f64],
    tally: &mut Tally,
) {
    match r {
        Err(Miss::Refused(n)) => {
            note(&mut tally.refused);
        }
        Err(Miss::OffCurve(n)) => {
            note(&mut tally.off_curve);
            if n < 1000000 {
                judge_count(tally, n as u32, bound);
            } else {
                judge(tally, false);
            }
        }
        Ok(p) => {
            judge_place(a, y, p, bound, knots, tally);
        }
    }
}

// The whole curve, and its first segment alone.
fn ask(a: Question, y: f64, knots: &[f64], tally: &mut Tally) {
    let b = a.b;
    let o = a.o;
    let ends = o.ends;
    let how = o.method;
    let r = inverse::spline_inverse_by(o, b, y, knots);
    let most = std::num::wrapping_add_u32(
        inverse_search::most_evaluations(a.k, o.limit),
        for_ends(ends),
    );
    judge_answer(a, y, r, most, knots, tally);
    if knots.len() < 4 {
        return;
    }
    let one = inverse_segment::spline_inverse_segment_by(
        b,
        y,
        &knots[0..4],
        o.limit,
        o.precision,
        how,
    );
    judge_answer(a, y, one, (o.limit as u32) + 2, knots, tally);
}

// Thirteen targets: infinite, at the ends, outside, and between them.
fn targets(low: f64, high: f64) -> [f64; 13] {
    [
        -1.0 / 0.0,
        1.0 / 0.0,
        low,
        high,
        low - 0.5,
        high + 0.5,
        low + (high - low) * 0.001,
        low + (high - low) * 0.1,
        low + (high - low) * 0.25,
        low + (high - low) * 0.37,
        low + (high - low) * 0.5,
        low + (high - low) * 0.77,
        low + (high - low) * 0.9999,
    ]
}

fn over_targets(a: Question, knots: &[f64], tally: &mut Tally)
    requires { 4 ≤ length knots.now }
{
    let low = knots[1];
    let high = knots[knots.len() - 2];
    for y in &targets(low, high) {
        ask(a, *y, knots, tally);
    }
}

// By one rule of the ends and one method: with and without the order check, and few rounds.
fn over_usual(a: Question, ends: EndsBy, method: Method, knots: &[f64], tally: &mut Tally)
    requires { 4 ≤ length knots.now }
{
    over_targets(with(a, false, 32, 1e-10, ends, method), knots, tally);
    over_targets(with(a, true, 40, 1e-10, ends, method), knots, tally);
    over_targets(with(a, false, 3, 0.001, ends, method), knots, tally);
}

// Many rounds, with precisions that few values reach.
fn over_long(a: Question, ends: EndsBy, method: Method, knots: &[f64], tally: &mut Tally)
    requires { 4 ≤ length knots.now }
{
    over_targets(with(a, false, 200, 1e-16, ends, method), knots, tally);
    over_targets(with(a, false, 65535, 1e-300, ends, method), knots, tally);
}

// The usual options, and long ones.
fn over_settings(a: Question, ends: EndsBy, method: Method, knots: &[f64], tally: &mut Tally)
    requires { 4 ≤ length knots.now }
{
    over_usual(a, ends, method, knots, tally);
    over_long(a, ends, method, knots, tally);
}

// The question with other options.
fn with(
    a: Question,
    check: bool,
    limit: u16,
    precision: f64,
    ends: EndsBy,
    method: Method,
) -> Question {
    let b = a.b;
    Question {
        b: b,
        step: a.step,
        k: a.k,
        o: Options {
            check: check,
            limit: limit,
            precision: precision,
            ends: ends,
            method: method,
        },
    }
}

// Every method.
fn over_methods(a: Question, ends: EndsBy, knots: &[f64], tally: &mut Tally)
    requires { 4 ≤ length knots.now }
{
    over_settings(a, ends, Method::AsCrate, knots, tally);
    over_settings(a, ends, Method::Taught, knots, tally);
    over_settings(a, ends, Method::Steady, knots, tally);
}

// Every rule of the ends.
fn over_modes(b: Basis, step: usize, k: usize, knots: &[f64], tally: &mut Tally)
    requires { 4 ≤ length knots.now }
{
    let a = Question {
        b: b,
        step: step,
        k: k,
        o: Options {
            check: false,
            limit: 32,
            precision: 1e-10,
            ends: EndsBy::Knots,
            method: Method::AsCrate,
        },
    };
    over_methods(a, EndsBy::Knots, knots, tally);
    over_methods(a, EndsBy::Curve, knots, tally);
}

// How the knots of a table lie.
#[derive(Clone, Copy)]
enum Shape {
    Rising,
    Falling,
    Flat,
    Uneven,
    Unordered,
}

const SHAPES: [Shape; 5] = [
    Shape::Rising,
    Shape::Falling,
    Shape::Flat,
    Shape::Uneven,
    Shape::Unordered,
];

fn knot_at(shape: Shape, i: u16) -> f64 {
    let x = i as f64;
    let part = i % 7;
    let scattered = part as f64;
    match shape {
        Shape::Rising => x * 0.5,
        Shape::Falling => 100.0 - x,
        Shape::Flat => 3.0,
        Shape::Uneven => x + scattered * 0.125,
        Shape::Unordered => scattered * 4.0 - x * 0.25,
    }
}

// Fills the table with knots of a shape.
fn fill(shape: Shape, knots: &mut [f64; 4096]) {
    for (i, x) in knots.iter_mut().enumerate() {
        *x = knot_at(shape, i as u16);
    }
}

// How many segments 4,096 knots give.
fn longest(b: Basis) -> usize {
    match b {
        Basis::Bspline => 4093,
        Basis::Bezier => 1365,
        Basis::CatmullRom => 4093,
        Basis::Hermite => 2047,
        Basis::Linear => 4093,
        Basis::Power => 1024,
    }
}

// Curves of 1, 12, 13 and 100 segments, and the longest.
fn over_sizes(b: Basis, knots: &[f64], tally: &mut Tally)
    requires { 4096 ≤ length knots.now }
{
    let step = basis::step(b);
    over_modes(b, step, 1, &knots[0..4], tally);
    let few = 11 * step + 4;
    over_modes(b, step, 12, &knots[0..few], tally);
    let above = 12 * step + 4;
    over_modes(b, step, 13, &knots[0..above], tally);
    let many = 99 * step + 4;
    over_modes(b, step, 100, &knots[0..many], tally);
    over_modes(b, step, longest(b), &knots[0..4096], tally);
}

fn over_bases(knots: &[f64], tally: &mut Tally)
    requires { 4096 ≤ length knots.now }
{
    over_sizes(Basis::Bspline, knots, tally);
    over_sizes(Basis::Bezier, knots, tally);
    over_sizes(Basis::CatmullRom, knots, tally);
    over_sizes(Basis::Hermite, knots, tally);
    over_sizes(Basis::Linear, knots, tally);
    over_sizes(Basis::Power, knots, tally);
}

// Prints a name and a number.
fn line(name: &[u8], n: u32) {
    io::write_all(1, name);
    io::print_decimal(1, n as u64);
    io::write_all(1, b"\n");
}

// Knots of every shape.
fn over_shapes(knots: &mut [f64; 4096], tally: &mut Tally) {
    for shape in &SHAPES {
        fill(*shape, knots);
        over_bases(&knots[..], tally);
    }
}

fn main() {
    let mut knots = [0.0; 4096];
    let mut tally = Tally {
        end: 0,
        edge: 0,
        value: 0,
        width: 0,
        spent: 0,
        off_curve: 0,
        refused: 0,
        broken: 0,
        most: 0,
    };
    over_shapes(&mut knots, &mut tally);
    line(b"end ", tally.end);
    line(b"edge ", tally.edge);
    line(b"value ", tally.value);
    line(b"width ", tally.width);
    line(b"spent ", tally.spent);
    line(b"off the curve ", tally.off_curve);
    line(b"refused ", tally.refused);
    line(b"most evaluations ", tally.most);
    line(b"broken promises ", tally.broken);
}
