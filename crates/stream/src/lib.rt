// Standard input and output in pieces, and the loop of every program over lines between them.
// Where a read or a write fails, standard error is told.
#![tactic(auto)]

ghost use Rattle.std.specs.Prelude.{◌≡◌, ◌+◌, ◌≤◌, ◌<◌, length, Err, IfOk, IfErr, IfSome};
ghost use Rattle.stream.specs.Stream.{got_of, left_of, moved, Reached};
ghost use Rattle.lines_machine.specs.Bytes.{state_at, ran_of};

use lines_machine::{LineSoFar, Machine};
use std::io::{Read, Stdin};

// The descriptors of standard output and of standard error.
const STDOUT: i32 = 1;

const STDERR: i32 = 2;

// What failed.
#[derive(Clone, Copy, Debug, PartialEq, Eq)]
pub enum Failure {
    Read,
    Write,
}

// All of a text, unless something failed before: then nothing, and that is still what failed.
pub fn written(before: Result<(), Failure>, text: &[u8]) -> Result<(), Failure>
    ensures { IfErr before (λ f. result ≡ Err f) }
{
    before?;
    if io::write_all(STDOUT, text) {
        return Ok(());
    }
    io::write_all(STDERR, b"write failed\n");
    Err(Failure::Write)
}

// What a read's answer says: how many bytes it brought, or that there is no more to read.
fn of_answer(answer: std::io::Result<usize>) -> Result<Option<usize>, Failure>
    ensures { result ≡ got_of (moved answer) }
{
    match answer {
        Ok(0) => Ok(None),
        Ok(n) => Ok(Some(n)),
        Err(_) => Err(Failure::Read),
    }
}

// One read: it brought some bytes, or there is no more; one that failed brought none.
pub fn read(mut input: Stdin, chunk: &mut [u8]) -> Result<Option<usize>, Failure>
    ensures fits { IfOk result (λ got. IfSome got (λ n. n ≤ length chunk.new)) }
    ensures on { IfOk result (λ got. IfSome got (λ n. 0 < n)) }
{
    let got = of_answer(input.read(&mut *chunk));
    if got.is_err() {
        io::write_all(STDERR, b"read failed\n");
    }
    got
}

// The bytes of a chunk. Each pass of the loop writes what `out` has room for; after a failed write nothing is written.
pub fn feed_all<M: Machine>(
    m: &mut M,
    line: &mut LineSoFar,
    chunk: &[u8],
    out: &mut [u8],
) -> Result<(), Failure>
    requires keeps { M.Keeps m.old }
    requires room { M.LINE_ROOM ≤ length out.old }
    ensures state { state_at line.new (M.held m.new) ≡ ran_of M.program (state_at line.old (M.held m.old)) chunk.now }
    ensures kept { M.Keeps m.new }
{
    let mut rest = chunk;
    let mut wrote = Ok(());
    while !rest.is_empty() {
        let taken = m.feed(&mut *line, rest, &mut *out);
        wrote = written(wrote, &out[..taken.at]);
        rest = &rest[taken.bytes..];
    }
    wrote
}

// How many reads are left: one fewer than before, or none. It begins with more than any run makes.
pub fn left(before: u64, more: bool) -> u64
    requires { 0 < before }
    ensures answer { result ≡ left_of before more }
    ensures fewer { result < before }
{
    if more { before - 1 } else { 0 }
}

// All that is read, fed and written, until a read brings nothing or something failed.
pub fn read_all<M: Machine>(
    input: Stdin,
    m: &mut M,
    line: &mut LineSoFar,
    chunk: &mut [u8],
    out: &mut [u8],
) -> Result<(), Failure>
    requires keeps { M.Keeps m.old }
    requires room { M.LINE_ROOM ≤ length out.old }
    ensures state { Reached M.program (state_at line.old (M.held m.old)) (state_at line.new (M.held m.new)) }
    ensures kept { M.Keeps m.new }
    ensures long { length out.new ≡ length out.old }
{
    let mut reads = u64::MAX;
    while reads > 0 {
        let got = read(input, &mut *chunk)?;
        let n = got.unwrap_or(0);
        feed_all(&mut *m, &mut *line, &chunk[..n], &mut *out)?;
        reads = left(reads, got.is_some());
    }
    Ok(())
}

// The end of the input, written where nothing failed before.
pub fn ended<M: Machine>(
    before: Result<(), Failure>,
    m: &mut M,
    line: &LineSoFar,
    out: &mut [u8],
) -> Result<(), Failure>
    requires keeps { M.Keeps m.old }
    requires room { M.LINE_ROOM + M.END_ROOM ≤ length out.old }
    ensures { IfErr before (λ f. result ≡ Err f) }
{
    let at = m.finish(line, &mut *out);
    written(before, &out[..at])
}

// The whole input; its end is written where nothing failed.
pub fn whole<M: Machine>(
    input: Stdin,
    m: &mut M,
    chunk: &mut [u8],
    out: &mut [u8],
) -> Result<(), Failure>
    requires keeps { M.Keeps m.old }
    requires room { M.LINE_ROOM + M.END_ROOM ≤ length out.old }
{
    let mut line = M::begin();
    let read = read_all(input, &mut *m, &mut line, chunk, &mut *out);
    ended(read, m, &line, out)
}
