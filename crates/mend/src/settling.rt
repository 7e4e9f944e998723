// Where the jobs come out: one after the other in the order of their given starts, each as soon as it may.
ghost use Rattle.std.specs.Prelude.{◌≡◌, ◌+◌, max, ltb, length};
ghost use Rattle.schedule.specs.Quantities.{jobs, Valid};
ghost use Rattle.mend.specs.inside.Settling.{Settles};

use base::JobNumber;
use schedule::{Recorder, running_order};

// The latest of a job's given start, its release and the end of the job before it.
fn latest(given: u16, release: u16, end: u16) -> u16
    ensures { result ≡ max given (max release end) }
{
    given.max(release.max(end))
}

// Given starts come from outside: their sums with running times need more than 16 bits.
fn is_late(deadline: u16, start: u16, run: u16) -> bool
    ensures { result ≡ ltb deadline (start + run) }
{
    (deadline as u32) < start as u32 + run as u32
}

// Every job in turn: the starts by job number where all come out in time, or the first job that comes out late. Up to there all ends lie within the horizon.
pub fn settle(r: Recorder, given: &[u16]) -> Result<[u16; 16], JobNumber>
    requires { Valid r × (length given.now ≡ jobs r) }
    ensures { Settles r given.now result }
{
    let jobs = r.jobs;
    let order = running_order(given);
    let mut starts = [0u16; 16];
    let mut end = 0u16;
    for done in 0..jobs.count {
        let next = order[done];
        let j = next.0;
        let job = jobs.list[j];
        let start = latest(given[j], job.release, end);
        if is_late(job.deadline, start, job.run) {
            return Err(next);
        }
        starts[j] = start;
        end = start + job.run;
    }
    Ok(starts)
}
