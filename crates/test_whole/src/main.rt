// Replays stored answers of the calls in whole numbers: standard input has a case to a line, and the port must answer each as it is stored.
// README.md beside this folder says what a line holds and how the list was made.
#![tactic(auto)]

ghost use Rattle.std.specs.Prelude.{◌<◌, IfSome};

use simmerstoat_whole::{simmerstoat_monotone, simmerstoat_turns_back, simmerstoat_turns_back_by};

// The line until now: its letter, how many words are whole, and the word that is being read, if a digit was seen.
#[derive(Clone, Copy)]
struct Line {
    pub letter: u8,
    pub words: usize,
    pub word: u64,
    pub inside: bool,
}

// Lines that were compared, those that were equal, and the numbers in the table.
#[derive(Clone, Copy)]
struct Tally {
    pub compared: u64,
    pub equal: u64,
    pub numbers: usize,
}

// The value of an uppercase hexadecimal digit.
fn digit(b: u8) -> Option<u64>
    ensures { IfSome result (λ d. d < 16) }
{
    match b {
        b'0'..=b'9' => Some((b - b'0') as u64),
        b'A'..=b'F' => Some((b - b'A') as u64 + 10),
        _ => None,
    }
}

// A number as a byte; 255 if it is larger.
fn byte(n: u64) -> u8 {
    u8::try_from(n).unwrap_or(255)
}

// A signed number: the half of an even one, and of an odd one its bits turned, which is as far below −1.
fn signed(n: u64) -> i64 {
    let h = (n / 2) as i64;
    if n % 2 == 0 {
        return h;
    }
    h ^ -1
}

// t: basis, by which direction (0 up, 1 down, 2 the curve's own ends), reply, which answer, segment. A refusal leaves what stood there.
fn turning_equal(w: [u64; 64], knots: &[i64]) -> bool {
    let mut turning: [usize; 2] = [7, 7];
    let b = byte(w[0]);
    let reply = match byte(w[1]) {
        0 => simmerstoat_turns_back_by(b, true, knots, &mut turning),
        1 => simmerstoat_turns_back_by(b, false, knots, &mut turning),
        _ => simmerstoat_turns_back(b, knots, &mut turning),
    };
    reply as u64 == w[2] && turning[0] as u64 == w[3] && turning[1] as u64 == w[4]
}

// Number i of the output is the stored one, of those that are written; the others are 7.
fn is_right(i: usize, n: usize, x: i64, w: &[u64]) -> bool {
    if n <= i {
        return x == 7;
    }
    w.get(i).is_some_and(|v| x == signed(*v))
}

// Whether the output is as stored, place by place.
fn same(n: usize, out: &[i64], w: &[u64]) -> bool {
    out.iter().enumerate().all(|(i, x)| is_right(i, n, *x, w))
}

fn output_equal(
    reply: u32,
    written: usize,
    out: [i64; 64],
    stored: u64,
    length: u64,
    w: &[u64],
) -> bool {
    reply as u64 == stored && written as u64 == length && same(written, &out, w)
}

// m: reply, how many numbers are written, and these. The output has 64 places.
fn table_equal(w: [u64; 64], rows: &[i64]) -> bool {
    let mut out: [i64; 64] = [7; 64];
    let mut written: usize = 0;
    let reply = simmerstoat_monotone(rows, &mut out, &mut written);
    output_equal(reply, written, out, w[0], w[1], &w[2..])
}

// Whether the call that a line's letter names answers as stored.
fn is_equal(letter: u8, w: [u64; 64], numbers: &[i64]) -> bool {
    match letter {
        b't' => turning_equal(w, numbers),
        b'm' => table_equal(w, numbers),
        _ => false,
    }
}

// k: the words are the numbers from now on; how many there are.
fn stored(w: &[u64], table: &mut [i64]) -> usize {
    for (x, word) in table.iter_mut().zip(w) {
        *x = signed(*word);
    }
    w.len()
}

// What a whole line does: it sets numbers, or asks and compares.
fn ended(line: Line, w: [u64; 64], table: &mut [i64], t: Tally) -> Tally {
    if line.letter == b'k' {
        let words = line.words.min(64);
        return Tally {
            numbers: stored(&w[0..words], table),
            ..t
        };
    }
    // z: so many numbers from now on
    if line.letter == b'z' {
        return Tally {
            numbers: w[0] as usize,
            ..t
        };
    }
    let numbers = t.numbers;
    if numbers <= table.len() {
        let good = is_equal(line.letter, w, &table[0..numbers]);
        return Tally {
            compared: t.compared.wrapping_add(1),
            equal: t.equal.wrapping_add(u64::from(good)),
            numbers,
        };
    }
    t
}

fn started() -> Line {
    Line {
        letter: 0,
        words: 0,
        word: 0,
        inside: false,
    }
}

// The word that a space or the line's end ends; words beyond 64 are dropped.
fn pushed(line: Line, w: &mut [u64; 64]) -> Line {
    if line.inside {
        let n = line.words;
        if n < 64 {
            w[n] = line.word;
            return Line {
                words: n + 1,
                word: 0,
                inside: false,
                ..line
            };
        }
    }
    line
}

// A byte of a line: a digit, the end of a word, or the letter.
fn step(line: Line, b: u8, w: &mut [u64; 64]) -> Line {
    if let Some(d) = digit(b) {
        return Line {
            word: line.word % 1152921504606846976 * 16 + d,
            inside: true,
            ..line
        };
    }
    if b == b' ' {
        return pushed(line, w);
    }
    Line { letter: b, ..line }
}

// Both, from byte to byte.
#[derive(Clone, Copy)]
struct Run {
    pub line: Line,
    pub tally: Tally,
}

// A byte of the input.
fn fed(r: Run, b: u8, w: &mut [u64; 64], table: &mut [i64]) -> Run {
    if b == b'\n' {
        let whole = pushed(r.line, w);
        return Run {
            line: started(),
            tally: ended(whole, *w, table, r.tally),
        };
    }
    Run {
        line: step(r.line, b, w),
        ..r
    }
}

fn feed(begun: Run, chunk: &[u8], w: &mut [u64; 64], table: &mut [i64]) -> Run {
    let mut r = begun;
    for b in chunk {
        r = fed(r, *b, w, table);
    }
    r
}

fn replay_chunk(r: Run, chunk: &mut [u8], w: &mut [u64; 64], table: &mut [i64]) -> Run {
    let n = io::read_full(0, chunk);
    feed(r, &chunk[0..n], w, table)
}

// At most 8 chunks: the list is shorter.
fn replayed(chunk: &mut [u8], w: &mut [u64; 64], table: &mut [i64]) -> Tally {
    let mut r = Run {
        line: started(),
        tally: Tally {
            compared: 0,
            equal: 0,
            numbers: 0,
        },
    };
    for _ in 0..8 {
        r = replay_chunk(r, chunk, w, table);
    }
    r.tally
}

fn main() {
    let mut chunk = io::large_buffer();
    let mut w: [u64; 64] = [0; 64];
    // more than 4,096, for refusal 3
    let mut table: [i64; 4200] = [0; 4200];
    let t = replayed(&mut chunk, &mut w, &mut table);
    io::print_decimal(1, t.compared);
    io::write_all(1, b" answers compared, ");
    io::print_decimal(1, t.equal);
    io::write_all(1, b" equal\n");
}
