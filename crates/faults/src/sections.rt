// The sections in turn, from the first byte after the mark on: the first place at fault decides.
ghost use Rattle.std.specs.Prelude.{◌≡◌, ℕ, ◌+◌, ◌*◌, ◌≤◌, ◌<◌, length};
ghost use Rattle.base.specs.Bytes.{byte_at};
ghost use Rattle.tables.specs.Layout.{marker};
ghost use Rattle.request.specs.inside.Held.{SoundTasks};
ghost use Rattle.faults.specs.declared.Place.TheVariants.{Horizon, End};
ghost use Rattle.base.specs.Reasons.{number_of};
ghost use Rattle.faults.specs.Places.{place_at, at_fault, judged, FaultAs};
ghost use Rattle.faults.specs.inside.Walk.{jobs_walk, job_walk, task_walk, walk};

use crate::{Place, PlaceFault, records};
use base::Reason;
use request::{Section, horizon_of, is_mixed, job_count};
use tables::{Kind, device_place};

// A count, which is one byte, or would be.
fn count_at(s: &[u8], mark: usize, place: Place, at: usize, reason: Reason) -> PlaceFault
    requires { (at ≤ length s.now) × (mark ≤ 2) }
    ensures { at_fault result ≡ place_at mark place at (at + 1) (number_of reason) }
{
    PlaceFault {
        reason,
        place,
        from: mark + at,
        to: mark + (at + 1),
    }
}

// What follows the last section, up to the end of the file.
fn end_from(s: &[u8], mark: usize, at: usize) -> PlaceFault
    requires { (at ≤ length s.now) × (mark ≤ 2) }
    ensures { at_fault result ≡ place_at mark End at (length s.now) 2 }
{
    PlaceFault {
        reason: Reason::GoesOn,
        place: Place::End,
        from: mark + at,
        to: mark + s.len(),
    }
}

// The horizon, which is two bytes, where they are not there.
fn no_horizon(mark: usize) -> PlaceFault
    requires { mark ≤ 2 }
    ensures { at_fault result ≡ place_at mark Horizon 0 2 1 }
{
    PlaceFault {
        reason: Reason::CutShort,
        place: Place::Horizon,
        from: mark,
        to: mark + 2,
    }
}

// 12, then the job records, then 2.
fn jobs_fault(
    s: &[u8],
    mark: usize,
    n: usize,
    tasks: usize,
    from: usize,
    at: usize,
    h: u32,
) -> Result<(), PlaceFault>
    requires { SoundTasks s.now tasks from × (h ≤ 4096) × (at < length s.now) × (mark ≤ 2) }
    ensures { judged result ≡ jobs_walk mark s.now n tasks from at h }
{
    let count = s[at] as usize;
    if 16 < job_count(s, tasks, from, count, h) {
        return Err(count_at(s, mark, Place::JobCount, at, Reason::ManyJobs));
    }
    records::records_place(s, mark, Section::JobRecords(n, h), count, at + 1)?;
    let end = at + 1 + count * 7;
    if end < s.len() {
        return Err(end_from(s, mark, end));
    }
    Ok(())
}

// From the job count on: 11, then 10, then the jobs.
fn job_fault(
    s: &[u8],
    mark: usize,
    n: usize,
    tasks: usize,
    from: usize,
    at: usize,
) -> Result<(), PlaceFault>
    requires { SoundTasks s.now tasks from × (3 ≤ from) × (from ≤ at) × (at ≤ length s.now) × (mark ≤ 2) }
    ensures { judged result ≡ job_walk mark s.now n tasks from at }
{
    if s.len() <= at {
        return Err(count_at(s, mark, Place::JobCount, at, Reason::CutShort));
    }
    if is_mixed(s, tasks, at) {
        return Err(count_at(s, mark, Place::JobCount, at, Reason::Mixed));
    }
    let h = horizon_of(s, tasks, from);
    if h == 0 {
        return Err(count_at(s, mark, Place::JobCount, at, Reason::Horizon)); // no tick
    }
    if 4096 < h {
        return Err(count_at(s, mark, Place::JobCount, at, Reason::Horizon)); // too many ticks
    }
    jobs_fault(s, mark, n, tasks, from, at, h)
}

// From the task count on.
fn task_fault(s: &[u8], mark: usize, n: usize, at: usize) -> Result<(), PlaceFault>
    requires { (at ≤ length s.now) × (3 ≤ at) × (mark ≤ 2) }
    ensures { judged result ≡ task_walk mark s.now n at }
{
    if s.len() <= at {
        return Err(count_at(s, mark, Place::TaskCount, at, Reason::CutShort));
    }
    let tasks = s[at] as usize;
    if 8 < tasks {
        return Err(count_at(s, mark, Place::TaskCount, at, Reason::ManyTasks));
    }
    records::records_place(s, mark, Section::TaskRecords(n), tasks, at + 1)?;
    job_fault(s, mark, n, tasks, at + 1, at + 1 + tasks * 5)
}

// Of what follows a mark of so many bytes. The horizon and the device count are called for together (rule 15): the first of them that is not there is told.
fn walk_in(s: &[u8], kind: Kind, mark: usize) -> Result<(), PlaceFault>
    requires { mark ≤ 2 }
    ensures { judged result ≡ walk mark kind s.now }
{
    if s.len() < 2 {
        return Err(no_horizon(mark));
    }
    if s.len() < 3 {
        return Err(count_at(s, mark, Place::DeviceCount, 2, Reason::CutShort));
    }
    let n = s[2] as usize;
    if 8 < n {
        return Err(count_at(s, mark, Place::DeviceCount, 2, Reason::ManyDevices));
    }
    records::records_place(s, mark, Section::DeviceRecords(kind), n, 3)?;
    task_fault(s, mark, n, device_place(s, kind, n))
}

pub(crate) fn fault_in(s: &[u8], kind: Kind, mark: usize) -> Result<(), PlaceFault>
    requires { mark ≡ length (marker kind) }
    ensures { FaultAs kind s.now (judged result) }
{
    walk_in(s, kind, mark)
}
