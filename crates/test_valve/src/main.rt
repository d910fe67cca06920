// The valves' readings, run by the call and printed, a line each.
#![tactic(auto)]

use error::Refusal;

fn say(w: &[u8]) {
    io::write_all(1, w);
}

// The number; 4 tells the knot too.
fn say_refused(r: Refusal) {
    let reply = error::reply(r);
    say(b"refused ");
    io::print_decimal(1, (reply % 256) as u64);
    if reply % 256 == 4 {
        say(b" at ");
        io::print_decimal(1, (reply / 256) as u64);
    }
    say(b"\n");
}

fn answer(step: u16, knots: &[i64], sum: i64) {
    let m = valve::mix(step, knots);
    match m {
        Err(r) => say_refused(r),
        Ok(z) => {
            if z == sum {
                say(b"the sum\n");
            } else {
                say(b"another sum\n");
            }
        }
    }
}

// specs/Readings.antt has the same, in this order; where a refusal is expected the sum is 0.
fn main() {
    answer(0, &[1, 10, 100, 1000], 2365587456);
    answer(256, &[1, 10, 100, 1000], 23655874560);
    answer(128, &[1, 10, 100, 1000], 7405043712);
    answer(0, &[1000000, 1000000, 1000000, 1000000], 100663296000000);
    answer(
        256,
        &[-1000000, -1000000, -1000000, -1000000],
        -100663296000000,
    );
    answer(0, &[1000000, -1000000, 1000000, -1000000], -33554432000000);
    answer(257, &[1, 10, 100, 1000], 0);
    answer(65535, &[1, 10, 100, 1000], 0);
    answer(0, &[1000001, 0, 0, 0], 0);
    answer(0, &[0, -1000001, 1000001, 0], 0);
    answer(0, &[0, 0, 1000001, 0], 0);
    answer(0, &[0, 0, 0, -1000001], 0);
    answer(257, &[1000001, 0, 0, 0], 0);
    answer(257, &[1000001, 0, 0], 0);
    answer(257, &[1000001, 0, 0, 0, 0], 0);
}
