// The sections in turn, from the first byte on: whatever is wrong first gives the number.
ghost use Rattle.std.specs.Prelude.{◌≡◌, ℕ, ◌+◌, ◌*◌, ◌≤◌, ◌<◌, min, length};
ghost use Rattle.base.specs.Bytes.{byte_at, pair_at};
ghost use Rattle.base.specs.Reasons.{number_in};
ghost use Rattle.request.specs.Format.{mixed, count_of, job_records, job_section, task_section, fault_as};
ghost use Rattle.request.specs.inside.Held.{SoundTasks};

use super::{Section, checks, horizon, jobs};
use base::Reason;
use tables::Kind;

// Tasks are given, and the horizon field or the job count, which stands at a place, is not 0.
pub fn is_mixed(s: &[u8], tasks: usize, at: usize) -> bool
    requires { (0 < at) × (at < length s.now) }
    ensures { result ≡ mixed tasks (pair_at s.now 0) (byte_at s.now at) }
{
    tasks != 0 && (base::pair_at(s, 0) != 0 || s[at] != 0)
}

// The number of jobs, given or unfolded: for all above 16 some number above 16.
pub fn job_count(s: &[u8], tasks: usize, from: usize, count: usize, h: u32) -> usize
    requires { SoundTasks s.now tasks from × (h ≤ 4096) }
    ensures { min result 17 ≡ min (count_of s.now tasks from count h) 17 }
{
    if tasks == 0 {
        return count;
    }
    let js = jobs::unfold(s, tasks, from, h);
    js.count
}

// That there are too many jobs, then the job records, then that something follows them.
fn job_records(
    s: &[u8],
    n: usize,
    tasks: usize,
    from: usize,
    at: usize,
    h: u32,
) -> Result<(), Reason>
    requires { SoundTasks s.now tasks from × (h ≤ 4096) × (at < length s.now) }
    ensures { number_in result ≡ job_records s.now n tasks from at h }
{
    let count = s[at] as usize;
    if 16 < job_count(s, tasks, from, count, h) {
        return Err(Reason::ManyJobs);
    }
    checks::records_fault(s, Section::JobRecords(n, h), count, at + 1)?;
    if at + 1 + count * 7 < s.len() {
        return Err(Reason::GoesOn);
    }
    Ok(())
}

// From the job count on: tasks with more than jobs besides, then the horizon, then the jobs.
fn job_section(s: &[u8], n: usize, tasks: usize, from: usize, at: usize) -> Result<(), Reason>
    requires { SoundTasks s.now tasks from × (3 ≤ from) × (from ≤ at) }
    ensures { number_in result ≡ job_section s.now n tasks from at }
{
    if s.len() <= at {
        return Err(Reason::CutShort);
    }
    if is_mixed(s, tasks, at) {
        return Err(Reason::Mixed);
    }
    let h = horizon::horizon_of(s, tasks, from);
    if h == 0 || 4096 < h {
        return Err(Reason::Horizon);
    }
    job_records(s, n, tasks, from, at, h)
}

// From the task count on.
fn task_section(s: &[u8], n: usize, at: usize) -> Result<(), Reason>
    requires { (at ≤ length s.now) × (3 ≤ at) }
    ensures { number_in result ≡ task_section s.now n at }
{
    if s.len() <= at {
        return Err(Reason::CutShort);
    }
    let tasks = s[at] as usize;
    if 8 < tasks {
        return Err(Reason::ManyTasks);
    }
    checks::records_fault(s, Section::TaskRecords(n), tasks, at + 1)?;
    job_section(s, n, tasks, at + 1, at + 1 + tasks * 5)
}

// The refusal of what follows the mark of a file of a kind.
pub(crate) fn fault_of(s: &[u8], kind: Kind) -> Result<(), Reason>
    ensures { number_in result ≡ fault_as kind s.now }
{
    if s.len() < 3 {
        return Err(Reason::CutShort);
    }
    let n = s[2] as usize;
    if 8 < n {
        return Err(Reason::ManyDevices);
    }
    checks::records_fault(s, Section::DeviceRecords(kind), n, 3)?;
    task_section(s, n, tables::device_place(s, kind, n))
}
