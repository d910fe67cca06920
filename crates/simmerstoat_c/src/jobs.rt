// What C and Rust call: how far a job had come that stopped at a depth, on a table with a span.
ghost use Rattle.std.specs.Prelude.{◌≡◌};
ghost use Rattle.exports_reply.specs.Replies.{chosen_of, no_basis, chosen};
ghost use Rattle.exports_stopped.specs.Jobs.{said_reply, said_job, said_place, said_whole};
ghost use Rattle.exports_table.specs.Tables.{table_of};
ghost use Rattle.stopped.specs.Stopped.{stopped_of};

// By the curve's own ends and the steady method with its defaults.
#[unsafe(no_mangle)]
pub extern "C" fn simmerstoat_stopped(
    basis: u8,
    span: u32,
    y: f64,
    knots: &[f64],
    check: bool,
    job: &mut u8,
    place: &mut [f64; 4],
    whole: &mut [usize; 4],
) -> u32
    ensures answer { result ≡ chosen (chosen_of basis) no_basis
        (λ b. said_reply (stopped_of (table_of span b) y knots.now check)) }
    ensures job { job.new ≡ chosen (chosen_of basis) job.old
        (λ b. said_job (stopped_of (table_of span b) y knots.now check) job.old) }
    ensures place { place.new ≡ chosen (chosen_of basis) place.old
        (λ b. said_place (stopped_of (table_of span b) y knots.now check) place.old) }
    ensures whole { whole.new ≡ chosen (chosen_of basis) whole.old
        (λ b. said_whole (stopped_of (table_of span b) y knots.now check) whole.old) }
{
    simmerstoat::jobs::simmerstoat_stopped(basis, span, y, knots, check, job, place, whole)
}
