// Lines out of bytes, and the programs over them: lines have at most 64 bytes.
#![tactic(auto)]

ghost use Rattle.std.specs.Prelude.{◌≡◌, ◌≤◌, ◌<◌, ◌+◌, ℕ, [], length, take};
ghost use Rattle.text.specs.Wrote.{Wrote};
ghost use Rattle.lines_machine.specs.Program.{Line, widest, so, Program};
ghost use Rattle.lines_machine.specs.Bytes.{state_at, push, end_of};
ghost use Rattle.lines_machine.specs.Contract.{open_of, said_of, unbegun, Fits, Stretch, Fed};

use std::marker::Model;

// The most bytes of a line, without LF.
pub const WIDEST: usize = 64;

// The line that is being read: its bytes, of which the first 64 are kept, and their number, counted up to 65.
#[derive(Drop)]
pub struct LineSoFar {
    pub bytes: [u8; 64],
    pub len: usize,
}

impl Model for LineSoFar {
    ghost Value = { Line };

    ghost view = { λ l. open_of l.len l.bytes };
}

impl LineSoFar {
    // No byte of it.
    pub fn new() -> LineSoFar
        ensures { result ≡ so [] }
    {
        LineSoFar {
            bytes: [0; 64],
            len: 0,
        }
    }

    // The next line begins.
    pub fn clear(&mut self)
        ensures { self.new ≡ so [] }
    {
        self.len = 0;
    }

    // No byte was read; of a line that is too long some were.
    pub fn is_empty(&self) -> bool
        ensures { result ≡ unbegun self.now }
    {
        self.len == 0
    }

    // What it says, unless it is too long.
    pub fn said(&self) -> Option<&[u8]>
        ensures line { said_of result ≡ self.now }
        ensures fits { Fits (said_of result) }
    {
        self.bytes.get(..self.len)
    }

    // The line with a byte more.
    pub fn pushed(&mut self, byte: u8)
        ensures { self.new ≡ push self.old byte }
    {
        self.len = put(self.len, byte, &mut self.bytes);
    }

    // The bytes of the chunk from `from` up to the end of the line, or to the chunk's own, go onto the line. The answer is where they stop.
    pub fn cut(&mut self, chunk: &[u8], from: usize) -> usize
        requires { from ≤ length chunk.now }
        ensures { Stretch chunk.now from self.old result self.new }
    {
        let cut = stretch(chunk, from, self.len, &mut self.bytes);
        self.len = cut.len;
        cut.stop
    }
}

// A byte of a line, of which `len` bytes stand in the lent 64. The answer is how many stand there now; 65 means that the line is too long.
fn put(len: usize, byte: u8, bytes: &mut [u8]) -> usize
    requires { length bytes.old ≡ widest }
    ensures { open_of result bytes.new ≡ push (open_of len bytes.old) byte }
{
    if len < WIDEST {
        bytes[len] = byte;
        return len + 1;
    }
    WIDEST + 1
}

// Where a stretch of one line stops, and how many bytes of the line stand in the lent 64.
#[derive(Clone, Copy)]
struct Cut {
    stop: usize,
    len: usize,
}

// The stretch of a line that begins at `from`. The number of bytes is handed on by value: in the lent line it would go through memory for
// each byte.
fn stretch(chunk: &[u8], from: usize, len: usize, bytes: &mut [u8]) -> Cut
    requires long { length bytes.old ≡ widest }
    requires start { from ≤ length chunk.now }
    ensures { Stretch chunk.now from (open_of len bytes.old) result.stop (open_of result.len bytes.new) }
{
    let mut n = len;
    for i in from..chunk.len() {
        let b = chunk[i];
        if b == b'\n' {
            return Cut { stop: i, len: n };
        }
        n = put(n, b, &mut *bytes);
    }
    Cut {
        stop: chunk.len(),
        len: n,
    }
}

// Where the text in `out` ends, and how many bytes of the chunk were taken.
#[derive(Clone, Copy)]
pub struct Taken {
    pub at: usize,
    pub bytes: usize,
}

// A program over lines, as code. A line's text and the end's stand in `out` from place `at` on; the answer is the place behind it.
pub trait Machine {
    // The most bytes that a line prints, and that the end does.
    const LINE_ROOM: usize;

    const END_ROOM: usize;

    ghost LINE_ROOM: { ℕ };

    ghost END_ROOM: { ℕ };

    // What it does, over the states that contracts see; the state that it holds between two lines, and what it keeps true then.
    ghost State: { Type 0 };

    ghost program: { Program State };

    ghost held: { Self → State };

    ghost Keeps: { Self → Type 0 };

    // A line, unless it was too long.
    fn line(&mut self, line: Option<&[u8]>, out: &mut [u8], at: usize) -> usize
        requires fits { Fits (said_of line) }
        requires keeps { Keeps self.old }
        requires room { at + LINE_ROOM ≤ length out.old }
        ensures state { held self.new ≡ program.after (held self.old) (said_of line.entry) }
        ensures kept { Keeps self.new }
        ensures wrote { Wrote out.old at (program.tells (held self.old) (said_of line.entry)) out.new result }
        ensures short { result ≤ at + LINE_ROOM };

    // The end of the input.
    fn end(&mut self, out: &mut [u8], at: usize) -> usize
        requires keeps { Keeps self.old }
        requires room { at + END_ROOM ≤ length out.old }
        ensures wrote { Wrote out.old at (program.ends (held self.old)) out.new result }
        ensures short { result ≤ at + END_ROOM };

    // Before the first byte.
    fn begin() -> LineSoFar
        ensures { result ≡ so [] }
    {
        LineSoFar::new()
    }

    // Before the first byte of a next line.
    fn next_line(line: &mut LineSoFar)
        ensures { line.new ≡ so [] }
    {
        line.clear();
    }

    // Whether the input ends behind a line's end: then there is no last line without one.
    fn ends_whole(line: &LineSoFar) -> bool
        ensures { result ≡ unbegun line.now }
    {
        line.is_empty()
    }

    // The bytes of a chunk, as long as `out` has room for any line's text.
    fn feed(&mut self, line: &mut LineSoFar, chunk: &[u8], out: &mut [u8]) -> Taken
        requires keeps { Keeps self.old }
        ensures fed { Fed program (state_at line.old (held self.old)) (take result.bytes chunk.now)
            (state_at line.new (held self.new)) out.old 0 out.new result.at }
        ensures kept { Keeps self.new }
        ensures within { result.bytes ≤ length chunk.now }
        ensures short { result.at ≤ length out.new }
        ensures whole { LINE_ROOM ≡ 0 → result.bytes ≡ length chunk.now }
        ensures progress { 0 < length chunk.now → LINE_ROOM ≤ length out.old → 0 < result.bytes }
    {
        let mut at = 0;
        let mut i = 0;
        while i < chunk.len() {
            if out.len() - at < Self::LINE_ROOM {
                return Taken { at: at, bytes: i };
            }
            i = line.cut(chunk, i);
            if i < chunk.len() {
                at = self.line(line.said(), &mut *out, at);
                Self::next_line(&mut *line);
                i += 1;
            }
        }
        Taken { at: at, bytes: i }
    }

    // The end of the input: a last line may lack its LF.
    fn finish(&mut self, line: &LineSoFar, out: &mut [u8]) -> usize
        requires keeps { Keeps self.old }
        requires room { LINE_ROOM + END_ROOM ≤ length out.old }
        ensures wrote { Wrote out.old 0 (end_of program (state_at line.now (held self.old))) out.new result }
        ensures short { result ≤ LINE_ROOM + END_ROOM }
    {
        if Self::ends_whole(line) {
            return self.end(out, 0);
        }
        let at = self.line(line.said(), &mut *out, 0);
        self.end(out, at)
    }
}
