// bin/decimals, the printer of decimals: it reads, feeds and writes, in large pieces and fixed memory.
#![tactic(auto)]

ghost use Rattle.std.specs.Prelude.{◌≡◌, ◌≤◌, length};
ghost use Rattle.lines_machine.specs.Bytes.{state_at};
ghost use Rattle.stream.specs.Stream.{Reached};
ghost use Rattle.decimals.specs.Decimals.{decimals_program};

use decimals::Decimals;
use lines_machine::{LineSoFar, Machine};
use std::io::Stdin;
use stream::Failure;

// All of the input, read and fed to the printer of decimals, and what it writes.
fn read_all(
    input: Stdin,
    program: &mut Decimals,
    line: &mut LineSoFar,
    chunk: &mut [u8],
    out: &mut [u8],
) -> Result<(), Failure>
    requires room { 129 ≤ length out.old }
    ensures state { Reached decimals_program (state_at line.old tt)
        (state_at line.new tt) }
    ensures long { length out.new ≡ length out.old }
{
    stream::read_all(input, program, line, chunk, out)
}

// The program and the buffers, once, then all of the input, and its end. What failed was told on standard error.
fn main(rt: HostRuntime) {
    let mut program = Decimals;
    let mut line = Decimals::begin();
    let mut chunk = [0u8; 65536];
    let mut out = [0u8; 131200];
    let read = read_all(rt.stdin(), &mut program, &mut line, &mut chunk, &mut out);
    let _ = stream::ended(read, &mut program, &line, &mut out);
}
