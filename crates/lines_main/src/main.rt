// bin/lines, the line program: it reads, feeds and writes, in large pieces and fixed memory.
#![tactic(auto)]

ghost use Rattle.std.specs.Prelude.{◌≡◌, ◌≤◌, length};
ghost use Rattle.lines_answer.specs.Contract.{curve_of};
ghost use Rattle.lines_reply.specs.Contract.{longest};
ghost use Rattle.lines_machine.specs.Bytes.{state_at};
ghost use Rattle.stream.specs.Stream.{Reached};
ghost use Rattle.lines.specs.Lines.{line_program};

use lines::Lines;
use lines_machine::{LineSoFar, Machine};
use std::io::Stdin;
use stream::Failure;

// All of the input, read and fed to the line program, and what it writes.
fn read_all(
    input: Stdin,
    program: &mut Lines,
    line: &mut LineSoFar,
    chunk: &mut [u8],
    out: &mut [u8],
) -> Result<(), Failure>
    requires room { longest ≤ length out.old }
    ensures state { Reached line_program (state_at line.old (curve_of program.old.held program.old.table))
        (state_at line.new (curve_of program.new.held program.new.table)) }
    ensures long { length out.new ≡ length out.old }
{
    stream::read_all(input, program, line, chunk, out)
}

// The program and the buffers, once, then all of the input, and its end. What failed was told on standard error.
fn main(rt: HostRuntime) {
    let mut program = Lines::new();
    let mut line = Lines::begin();
    let mut chunk = [0u8; 65536];
    let mut out = [0u8; 188416];
    let read = read_all(rt.stdin(), &mut program, &mut line, &mut chunk, &mut out);
    let _ = stream::ended(read, &mut program, &line, &mut out);
}
