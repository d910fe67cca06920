// bin/picture, the picture of a listing: it reads, feeds and at the end writes, in fixed memory.
#![tactic(auto)]

use picture::Pictures;

// The program and the buffers, once, and then all of the input. What failed was told on standard error.
fn main(rt: HostRuntime) {
    let mut program = Pictures::new();
    let mut chunk = [0u8; 65536];
    let mut out = [0u8; 90145];
    let _ = stream::whole(rt.stdin(), &mut program, &mut chunk, &mut out);
}
