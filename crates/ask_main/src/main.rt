// bin/ask, the verdict on a sheet: it reads, feeds and writes, in large pieces and fixed memory.
#![tactic(auto)]

ghost use Rattle.std.specs.Prelude.{◌≡◌, ◌≤◌, length};
ghost use Rattle.lines_machine.specs.Bytes.{state_at};
ghost use Rattle.stream.specs.Stream.{Reached};
ghost use Rattle.ask.specs.Ask.{ask_program};
ghost use Rattle.ask_verdict.specs.Contract.{longest};
ghost use Rattle.ask.specs.Contract.{Kept, asking_of};

use ask::Questions;
use lines_machine::{LineSoFar, Machine};
use std::io::Stdin;
use stream::Failure;

// All of the input, read and fed to the program of questions, and what it writes.
fn read_all(
    input: Stdin,
    program: &mut Questions,
    line: &mut LineSoFar,
    chunk: &mut [u8],
    out: &mut [u8],
) -> Result<(), Failure>
    requires keeps { Kept program.old.held program.old.rows program.old.labels }
    requires room { longest ≤ length out.old }
    ensures state { Reached ask_program
        (state_at line.old (asking_of program.old.held program.old.rows program.old.labels program.old.knots))
        (state_at line.new (asking_of program.new.held program.new.rows program.new.labels program.new.knots)) }
    ensures kept { Kept program.new.held program.new.rows program.new.labels }
    ensures long { length out.new ≡ length out.old }
{
    stream::read_all(input, program, line, chunk, out)
}

// The program and the buffers, once, then all of the input, and its end. What failed was told on standard error.
fn main(rt: HostRuntime) {
    let mut program = Questions::new();
    let mut line = Questions::begin();
    let mut chunk = [0u8; 65536];
    let mut out = [0u8; 262144];
    let read = read_all(rt.stdin(), &mut program, &mut line, &mut chunk, &mut out);
    let _ = stream::ended(read, &mut program, &line, &mut out);
}
