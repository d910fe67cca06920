// Replays stored answers: standard input has a case to a line, and the port must answer each as it is stored.
// README.md beside this folder says what a line holds and how the list was made.
#![tactic(auto)]

ghost use Rattle.std.specs.Prelude.{◌<◌, IfSome};

use simmerstoat::claims::simmerstoat_check_claim;
use simmerstoat::hours::simmerstoat_depth_at;
use simmerstoat::jobs::simmerstoat_stopped;
use simmerstoat::options::{simmerstoat_spline_inverse_by, simmerstoat_spline_inverse_segment_by};
use simmerstoat::seams::simmerstoat_convert_spline_strict;
use simmerstoat::spans::{
    simmerstoat_table_convert_spline, simmerstoat_table_convert_spline_strict,
    simmerstoat_table_spline, simmerstoat_table_spline_inverse,
    simmerstoat_table_spline_inverse_by,
};
use simmerstoat::steady::{
    simmerstoat_spline_inverse_segment_steady, simmerstoat_spline_inverse_steady,
    simmerstoat_table_spline_inverse_steady,
};
use simmerstoat::{
    simmerstoat_convert_segment, simmerstoat_convert_spline, simmerstoat_spline,
    simmerstoat_spline_inverse_segment_with, simmerstoat_spline_inverse_with,
    simmerstoat_spline_segment,
};

// The line until now: its letter, how many words are whole, and the word that is being read, if a digit was seen.
#[derive(Clone, Copy)]
struct Line {
    pub letter: u8,
    pub words: usize,
    pub word: u64,
    pub inside: bool,
}

// Lines that were compared, those that were equal, and the knots in the table.
#[derive(Clone, Copy)]
struct Tally {
    pub compared: u64,
    pub equal: u64,
    pub knots: usize,
}

// The value of an uppercase hexadecimal digit.
fn digit(b: u8) -> Option<u64>
    ensures { IfSome result (λ d. d < 16) }
{
    match b {
        b'0'..=b'9' => Some((b - b'0') as u64),
        b'A'..=b'F' => Some((b - b'A') as u64 + 10),
        _ => None,
    }
}

// A number as a byte; 255 if it is larger.
fn byte(n: u64) -> u8 {
    u8::try_from(n).unwrap_or(255)
}

fn short(n: u64) -> u16 {
    u16::try_from(n).unwrap_or(0)
}

fn seconds(n: u64) -> u32 {
    u32::try_from(n).unwrap_or(0)
}

// The reply is the one stored: 0, or the refusal's number with its place.
fn told(reply: u32, stored: u64) -> bool {
    reply as u64 == stored
}

// v, s and t: basis, parameter, reply, value; for t the span.
fn value_equal(letter: u8, w: [u64; 64], knots: &[f64]) -> bool {
    let mut value = 0.0;
    let b = byte(w[0]);
    let x = text::of_bits(w[1]);
    let reply = match letter {
        b'v' => simmerstoat_spline(b, x, knots, &mut value),
        b's' => simmerstoat_spline_segment(b, x, knots, &mut value),
        _ => simmerstoat_table_spline(b, seconds(w[4]), x, knots, &mut value),
    };
    told(reply, w[2]) & ((reply != 0) | (text::to_bits(value) == w[3]))
}

// a: basis, target, segment, local place, precision, reply, 1 where the claim holds.
fn claim_equal(w: [u64; 64], knots: &[f64]) -> bool {
    let mut holds = false;
    let y = text::of_bits(w[1]);
    let x = text::of_bits(w[3]);
    let precision = text::of_bits(w[4]);
    let reply = simmerstoat_check_claim(
        byte(w[0]),
        y,
        w[2] as usize,
        x,
        precision,
        knots,
        &mut holds,
    );
    told(reply, w[5]) & (holds == (w[6] == 1))
}

// What an inversion left: parameter, local place, lower and upper end, ground, segment, count; for refusal 11 the count.
fn place_equal(reply: u32, place: [f64; 4], whole: [usize; 3], w: [u64; 64]) -> bool {
    if !told(reply, w[5]) {
        return false;
    }
    if reply == 11 {
        return whole[2] as u64 == w[12];
    }
    if reply != 0 {
        return true;
    }
    let places = text::to_bits(place[0]) == w[6]
        && text::to_bits(place[1]) == w[7]
        && text::to_bits(place[2]) == w[8]
        && text::to_bits(place[3]) == w[9];
    let wholes = whole[0] as u64 == w[10] && whole[1] as u64 == w[11] && whole[2] as u64 == w[12];
    places & wholes
}

// What the line of an inversion asks: its first five words, and those past reply and record.
#[derive(Clone, Copy)]
struct Question {
    pub basis: u8,
    pub y: f64,
    pub check: bool,
    pub limit: u16,
    pub precision: f64,
    pub ends: u8,
    pub method: u8,
    pub span: u32,
}

fn asked(w: [u64; 64]) -> Question {
    Question {
        basis: byte(w[0]),
        y: text::of_bits(w[1]),
        check: w[2] == 1,
        limit: short(w[3]),
        precision: text::of_bits(w[4]),
        ends: byte(w[13]),
        method: byte(w[14]),
        span: seconds(w[15]),
    }
}

// i and j by limit and precision, m and n by the end rule and the method besides, o and p by the steady method's defaults.
fn inversion_equal(letter: u8, q: Question, knots: &[f64], w: [u64; 64]) -> bool {
    let mut place = [0.0; 4];
    let mut whole: [usize; 3] = [0; 3];
    let b = q.basis;
    let y = q.y;
    let c = q.check;
    let n = q.limit;
    let e = q.precision;
    let m = q.method;
    let reply = match letter {
        b'i' => simmerstoat_spline_inverse_with(b, y, knots, c, n, e, &mut place, &mut whole),
        b'j' => simmerstoat_spline_inverse_segment_with(b, y, knots, n, e, &mut place, &mut whole),
        b'm' => simmerstoat_spline_inverse_by(
            b, y, knots, c, n, e, q.ends, m, &mut place, &mut whole,
        ),
        b'n' => simmerstoat_spline_inverse_segment_by(b, y, knots, n, e, m, &mut place, &mut whole),
        b'o' => simmerstoat_spline_inverse_steady(b, y, knots, c, &mut place, &mut whole),
        _ => simmerstoat_spline_inverse_segment_steady(b, y, knots, &mut place, &mut whole),
    };
    place_equal(reply, place, whole, w)
}

// The same with a fourth whole number: a table's second, or the count of both calls behind a depth.
fn place_equal_with(reply: u32, place: [f64; 4], whole: [usize; 4], w: [u64; 64]) -> bool {
    let three: [usize; 3] = [whole[0], whole[1], whole[2]];
    place_equal(reply, place, three, w) & ((reply != 0) | (whole[3] as u64 == w[16]))
}

// A table's: w by the crate's defaults, x by every option, y by the steady method's defaults.
fn table_inversion_equal(letter: u8, q: Question, knots: &[f64], w: [u64; 64]) -> bool {
    let mut place = [0.0; 4];
    let mut whole: [usize; 4] = [0; 4];
    let b = q.basis;
    let span = q.span;
    let y = q.y;
    let c = q.check;
    let reply = match letter {
        b'w' => simmerstoat_table_spline_inverse(b, span, y, knots, c, &mut place, &mut whole),
        b'x' => simmerstoat_table_spline_inverse_by(
            b,
            span,
            y,
            knots,
            c,
            q.limit,
            q.precision,
            q.ends,
            q.method,
            &mut place,
            &mut whole,
        ),
        _ => simmerstoat_table_spline_inverse_steady(b, span, y, knots, c, &mut place, &mut whole),
    };
    place_equal_with(reply, place, whole, w)
}

// q: what is said of the job stands where the end rule does; all else is 0 but where the job is under way.
fn job_equal(q: Question, knots: &[f64], w: [u64; 64]) -> bool {
    let mut job: u8 = 0;
    let mut place = [0.0; 4];
    let mut whole: [usize; 4] = [0; 4];
    let reply = simmerstoat_stopped(
        q.basis, q.span, q.y, knots, q.check, &mut job, &mut place, &mut whole,
    );
    place_equal_with(reply, place, whole, w) & (job == q.ends)
}

// h: the basis of the depths stands where the end rule does, then how many of the knots are the times, and the depth.
fn depth_equal(q: Question, knots: &[f64], w: [u64; 64]) -> bool {
    let n = w[14] as usize;
    if n > knots.len() {
        return false;
    }
    let mut depth = 0.0;
    let mut place = [0.0; 4];
    let mut whole: [usize; 4] = [0; 4];
    let reply = simmerstoat_depth_at(
        q.basis,
        &knots[0..n],
        q.ends,
        &knots[n..],
        q.y,
        q.limit,
        q.precision,
        &mut depth,
        &mut place,
        &mut whole,
    );
    place_equal_with(reply, place, whole, w) & ((reply != 0) | (text::to_bits(depth) == w[15]))
}

// The first n doubles are those of the words.
fn same(n: usize, out: &[f64], w: &[u64]) -> bool {
    n <= w.len()
        && out
            .iter()
            .zip(w)
            .take(n)
            .all(|(x, bits)| text::to_bits(*x) == *bits)
}

// What a conversion left, with the reply, the length and what is written as stored.
fn output_equal(
    reply: u32,
    written: usize,
    out: [f64; 64],
    stored: u64,
    length: u64,
    w: &[u64],
) -> bool {
    if !told(reply, stored) {
        return false;
    }
    if reply != 0 {
        return true;
    }
    written as u64 == length && same(written, &out, w)
}

// c and d: basis, output basis, reply, length, and what is written; d always writes four.
fn conversion_equal(letter: u8, w: [u64; 64], knots: &[f64]) -> bool {
    let mut out = [0.0; 64];
    let mut written: usize = 4;
    let from = byte(w[0]);
    let to = byte(w[1]);
    let reply = if letter == b'c' {
        simmerstoat_convert_spline(from, to, knots, &mut out, &mut written)
    } else {
        simmerstoat_convert_segment(from, to, knots, &mut out)
    };
    output_equal(reply, written, out, w[2], w[3], &w[4..])
}

// e strictly, f of a table, g both: basis, output basis, allowance, span, reply, length, and what is written.
// A table's span is handed on; e has none, which is 0.
fn further_conversion_equal(letter: u8, w: [u64; 64], knots: &[f64]) -> bool {
    let mut out = [0.0; 64];
    let mut written: usize = 0;
    let from = byte(w[0]);
    let to = byte(w[1]);
    let a = text::of_bits(w[2]);
    let span = seconds(w[3]);
    let mut handed: u32 = 0;
    let reply = match letter {
        b'e' => simmerstoat_convert_spline_strict(from, to, knots, a, &mut out, &mut written),
        b'f' => simmerstoat_table_convert_spline(
            from,
            span,
            to,
            knots,
            &mut out,
            &mut handed,
            &mut written,
        ),
        _ => simmerstoat_table_convert_spline_strict(
            from,
            span,
            to,
            knots,
            a,
            &mut out,
            &mut handed,
            &mut written,
        ),
    };
    output_equal(reply, written, out, w[4], w[5], &w[6..]) & ((reply != 0) | (handed == span))
}

// Whether the call that a line's letter names answers as stored.
fn is_equal(letter: u8, w: [u64; 64], knots: &[f64]) -> bool {
    let q = asked(w);
    match letter {
        b'v' | b's' | b't' => value_equal(letter, w, knots),
        b'a' => claim_equal(w, knots),
        b'c' | b'd' => conversion_equal(letter, w, knots),
        b'e' | b'f' | b'g' => further_conversion_equal(letter, w, knots),
        b'h' => depth_equal(q, knots, w),
        b'q' => job_equal(q, knots, w),
        b'w' | b'x' | b'y' => table_inversion_equal(letter, q, knots, w),
        b'i' | b'j' | b'm' | b'n' | b'o' | b'p' => inversion_equal(letter, q, knots, w),
        _ => false,
    }
}

// k: the words are the knots from now on; the number of them.
fn stored(w: &[u64], table: &mut [f64]) -> usize {
    for (x, bits) in table.iter_mut().zip(w) {
        *x = text::of_bits(*bits);
    }
    w.len()
}

// What a whole line does: it sets knots, or asks and compares.
fn ended(line: Line, w: [u64; 64], table: &mut [f64], t: Tally) -> Tally {
    if line.letter == b'k' {
        let words = line.words.min(64);
        return Tally {
            knots: stored(&w[0..words], table),
            ..t
        };
    }
    // z: so many knots from now on
    if line.letter == b'z' {
        return Tally {
            knots: w[0] as usize,
            ..t
        };
    }
    let knots = t.knots;
    if knots <= table.len() {
        let good = is_equal(line.letter, w, &table[0..knots]);
        return Tally {
            compared: t.compared.wrapping_add(1),
            equal: t.equal.wrapping_add(u64::from(good)),
            knots,
        };
    }
    t
}

fn started() -> Line {
    Line {
        letter: 0,
        words: 0,
        word: 0,
        inside: false,
    }
}

// The word that a space or the line's end ends; words beyond 64 are dropped.
fn pushed(line: Line, w: &mut [u64; 64]) -> Line {
    if line.inside {
        let n = line.words;
        if n < 64 {
            w[n] = line.word;
            return Line {
                words: n + 1,
                word: 0,
                inside: false,
                ..line
            };
        }
    }
    line
}

// A byte of a line: a digit, the end of a word, or the letter.
fn step(line: Line, b: u8, w: &mut [u64; 64]) -> Line {
    if let Some(d) = digit(b) {
        return Line {
            word: line.word % 1152921504606846976 * 16 + d,
            inside: true,
            ..line
        };
    }
    if b == b' ' {
        return pushed(line, w);
    }
    Line { letter: b, ..line }
}

// Both, from byte to byte.
#[derive(Clone, Copy)]
struct Run {
    pub line: Line,
    pub tally: Tally,
}

// A byte of the input.
fn fed(r: Run, b: u8, w: &mut [u64; 64], table: &mut [f64]) -> Run {
    if b == b'\n' {
        let whole = pushed(r.line, w);
        return Run {
            line: started(),
            tally: ended(whole, *w, table, r.tally),
        };
    }
    Run {
        line: step(r.line, b, w),
        ..r
    }
}

fn feed(begun: Run, chunk: &[u8], w: &mut [u64; 64], table: &mut [f64]) -> Run {
    let mut r = begun;
    for b in chunk {
        r = fed(r, *b, w, table);
    }
    r
}

fn replay_chunk(r: Run, chunk: &mut [u8], w: &mut [u64; 64], table: &mut [f64]) -> Run {
    let n = io::read_full(0, chunk);
    feed(r, &chunk[0..n], w, table)
}

// At most 32 chunks: the list is shorter.
fn replayed(chunk: &mut [u8], w: &mut [u64; 64], table: &mut [f64]) -> Tally {
    let mut r = Run {
        line: started(),
        tally: Tally {
            compared: 0,
            equal: 0,
            knots: 0,
        },
    };
    for _ in 0..32 {
        r = replay_chunk(r, chunk, w, table);
    }
    r.tally
}

fn main() {
    let mut chunk = io::large_buffer();
    let mut w: [u64; 64] = [0; 64];
    // more than 4,096, for refusal 3, and the other table of a depth besides
    let mut table = [0.0; 4200];
    let t = replayed(&mut chunk, &mut w, &mut table);
    io::print_decimal(1, t.compared);
    io::write_all(1, b" answers compared, ");
    io::print_decimal(1, t.equal);
    io::write_all(1, b" equal\n");
}
