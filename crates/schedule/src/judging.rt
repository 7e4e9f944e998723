// Judging start times: the first fault, in the order of rules 22 and 23, or none.
ghost use Rattle.std.specs.Prelude.{◌≡◌, ◌+◌, ◌<◌, length};
ghost use Rattle.base.specs.Reasons.{number_in};
ghost use Rattle.schedule.specs.Quantities.{jobs, Valid};
ghost use Rattle.schedule.specs.Listing.{Met, Overlaps};
ghost use Rattle.schedule.specs.inside.Judging.{Judgement, Windows, window_fault, clashes, Decides};

use crate::{Job, Recorder};
use base::{JobNumber, Reason};

// The first fault with its job: before the release, after the deadline, or an overlap.
#[derive(Clone, Copy, PartialEq, Eq)]
pub struct Misplaced {
    pub reason: Reason,
    pub job: JobNumber,
}

// Start times come from outside: their sums with running times need more than 16 bits.
fn window_fault(job: Job, start: u16) -> Result<(), Reason>
    ensures { number_in result ≡ window_fault job.release job.deadline job.run start }
{
    if start < job.release {
        return Err(Reason::Early);
    }
    if u32::from(job.deadline) < u32::from(start) + u32::from(job.run) {
        return Err(Reason::Late);
    }
    Ok(())
}

// The first job that misses its release or its deadline.
fn first_missed(r: Recorder, starts: &[u16]) -> Result<(), Misplaced>
    requires { Valid r × (length starts.now ≡ jobs r) }
    ensures { Windows r starts.now result }
{
    let jobs = r.jobs;
    for j in 0..jobs.count {
        if let Err(reason) = window_fault(jobs.list[j], starts[j]) {
            return Err(Misplaced {
                reason,
                job: JobNumber(j),
            });
        }
    }
    Ok(())
}

// Whether job i, of c ticks from s on, and job j, of e ticks from t on, are two that share a tick.
fn clash(i: JobNumber, s: u16, c: u16, j: JobNumber, t: u16, e: u16) -> bool
    ensures { result ≡ clashes i.0 s c j.0 t e }
{
    i.0 != j.0
        && u32::from(s) < u32::from(t) + u32::from(e)
        && u32::from(t) < u32::from(s) + u32::from(c)
}

// Whether a job overlaps another.
fn overlaps(r: Recorder, starts: &[u16], job: JobNumber) -> bool
    requires { Valid r × (length starts.now ≡ jobs r) × (job.0 < jobs r) }
    ensures { Decides (Overlaps r starts.now job.0) result }
{
    let jobs = r.jobs;
    let j = job.0;
    let own = jobs.list[j];
    for i in 0..jobs.count {
        let other = jobs.list[i];
        if clash(JobNumber(i), starts[i], other.run, job, starts[j], own.run) {
            return true;
        }
    }
    false
}

// The smallest number among the jobs that overlap another, where each job by itself is well placed.
fn first_overlap(r: Recorder, starts: &[u16]) -> Result<(), Misplaced>
    requires { Valid r × (length starts.now ≡ jobs r) × Met r starts.now (jobs r) }
    ensures { Judgement r starts.now result }
{
    for j in 0..r.jobs.count {
        if overlaps(r, starts, JobNumber(j)) {
            return Err(Misplaced {
                reason: Reason::Overlap,
                job: JobNumber(j),
            });
        }
    }
    Ok(())
}

// Start times judged, one for each job: all is well, or their first fault.
pub fn judge(r: Recorder, starts: &[u16]) -> Result<(), Misplaced>
    requires { Valid r × (length starts.now ≡ jobs r) }
    ensures { Judgement r starts.now result }
{
    first_missed(r, starts)?;
    first_overlap(r, starts)
}
