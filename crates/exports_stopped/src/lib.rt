// The export of what a stopped job's depth means: the function has the contract of the export that calls it. The basis comes by its
// number, the span in seconds, 0 for none.
#![tactic(auto)]

ghost use Rattle.std.specs.Prelude.{◌≡◌};
ghost use Rattle.exports_reply.specs.Replies.{chosen_of, no_basis, chosen};
ghost use Rattle.exports_stopped.specs.Jobs.{said_reply, said_job, said_place, said_whole};
ghost use Rattle.exports_table.specs.Tables.{table_of};
ghost use Rattle.stopped.specs.Stopped.{stopped_of};

use inverse_segment::Miss;
use stopped::Job;
use table_span::Table;

// What is said is left by its number. A job that is under way leaves its place and its second besides; refusal 11 its count.
fn job_told(a: Result<Job, Miss>, job: &mut u8, place: &mut [f64; 4], whole: &mut [usize; 4]) -> u32
    ensures answer { result ≡ said_reply a }
    ensures job { job.new ≡ said_job a job.old }
    ensures place { place.new ≡ said_place a place.old }
    ensures whole { whole.new ≡ said_whole a whole.old }
{
    match a {
        Err(Miss::Refused(r)) => error::reply(r),
        Err(Miss::OffCurve(n)) => exports_table::timed_told(Err(Miss::OffCurve(n)), place, whole),
        Ok(Job::UnderWay(s, p)) => {
            *job = 4;
            exports_table::timed_told(Ok((p, s)), place, whole)
        }
        Ok(Job::Flat) => {
            *job = 1;
            0
        }
        Ok(Job::Before) => {
            *job = 2;
            0
        }
        Ok(Job::Start) => {
            *job = 3;
            0
        }
        Ok(Job::End) => {
            *job = 5;
            0
        }
        Ok(Job::Beyond) => {
            *job = 6;
            0
        }
    }
}

// How far a job had come that stopped at the depth y.
pub fn stopped(
    basis: u8,
    span: u32,
    y: f64,
    knots: &[f64],
    check: bool,
    job: &mut u8,
    place: &mut [f64; 4],
    whole: &mut [usize; 4],
) -> u32
    ensures answer { result ≡ chosen (chosen_of basis) no_basis
        (λ b. said_reply (stopped_of (table_of span b) y knots.now check)) }
    ensures job { job.new ≡ chosen (chosen_of basis) job.old
        (λ b. said_job (stopped_of (table_of span b) y knots.now check) job.old) }
    ensures place { place.new ≡ chosen (chosen_of basis) place.old
        (λ b. said_place (stopped_of (table_of span b) y knots.now check) place.old) }
    ensures whole { whole.new ≡ chosen (chosen_of basis) whole.old
        (λ b. said_whole (stopped_of (table_of span b) y knots.now check) whole.old) }
{
    let c = exports_reply::basis_of(basis);
    let Some(b) = c else {
        return exports_reply::UNKNOWN;
    };
    let t = Table {
        basis: b,
        span: span,
    };
    job_told(stopped::stopped(t, y, knots, check), job, place, whole)
}
