// bin/compare, the comparison of two tables: it reads, feeds and writes, in large pieces and fixed memory.
#![tactic(auto)]

ghost use Rattle.std.specs.Prelude.{◌≡◌, ◌≤◌, length};
ghost use Rattle.lines_machine.specs.Bytes.{state_at};
ghost use Rattle.stream.specs.Stream.{Reached};
ghost use Rattle.compare_lines.specs.Listings.{compare_program};
ghost use Rattle.compare_lines.specs.Contract.{both_of};

use compare_lines::Comparisons;
use lines_machine::{LineSoFar, Machine};
use std::io::Stdin;
use stream::Failure;

// All of the input, read and fed to the comparison, and what it writes.
fn read_all(
    input: Stdin,
    program: &mut Comparisons,
    line: &mut LineSoFar,
    chunk: &mut [u8],
    out: &mut [u8],
) -> Result<(), Failure>
    requires room { 18 ≤ length out.old }
    ensures state { Reached compare_program
        (state_at line.old (both_of program.entry.now.held program.entry.now.old program.entry.now.new))
        (state_at line.new (both_of program.exit.now.held program.exit.now.old program.exit.now.new)) }
    ensures long { length out.new ≡ length out.old }
{
    stream::read_all(input, program, line, chunk, out)
}

// The program and the buffers, once, then all of the input, and its end. What failed was told on standard error.
fn main(rt: HostRuntime) {
    let mut program = Comparisons::new();
    let mut line = Comparisons::begin();
    let mut chunk = [0u8; 65536];
    let mut out = [0u8; 188416];
    let read = read_all(rt.stdin(), &mut program, &mut line, &mut chunk, &mut out);
    let _ = stream::ended(read, &mut program, &line, &mut out);
}
