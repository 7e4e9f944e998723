// What is planned with, from the records of the file.
ghost use Rattle.std.specs.Prelude.{◌≡◌, ℕ, ◌+◌, ◌*◌, ◌<◌, length};
ghost use Rattle.tables.specs.Records.{task_at, job_at};
ghost use Rattle.request.specs.Format.{set_of, device_of, listed_job};

use base::{JobNumber, TaskNumber};
use device::Device;
use schedule::Job;
use tables::{DeviceRecord, TaskRecord};

// For each device whether a set names it. Device 0 has the lowest bit.
pub(crate) fn set_of(set: u8) -> [bool; 8]
    ensures { result ≡ set_of set }
{
    let mut uses = [false; 8];
    for (k, used) in uses.iter_mut().enumerate() {
        *used = (set >> k) % 2 == 1;
    }
    uses
}

// What is planned with, whatever the kind (rule 3).
pub fn device_of(d: DeviceRecord) -> Device
    ensures { result ≡ device_of d }
{
    Device {
        shut: d.shut,
        wake: d.wake,
        pw: d.pw,
        pd: d.pshut,
        pu: d.pwake,
        levels: d.levels,
        powers: [d.ps, d.ps2, d.ps3, d.ps4],
    }
}

// The task of a number, of those whose records begin at a place.
pub(crate) fn task_of(s: &[u8], from: usize, task: TaskNumber) -> TaskRecord
    requires { from + task.0 * 5 + 4 < length s.now }
    ensures { result ≡ task_at s.now (from + task.0 * 5) }
{
    tables::task_at(s, from + task.0 * 5)
}

// The job of a number, of those whose records begin at a place.
pub(crate) fn listed_job(s: &[u8], from: usize, job: JobNumber) -> Job
    requires { from + job.0 * 7 + 6 < length s.now }
    ensures { result ≡ listed_job (job_at s.now (from + job.0 * 7)) }
{
    let j = tables::job_at(s, from + job.0 * 7);
    Job {
        release: j.release,
        deadline: j.deadline,
        run: j.run,
        uses: set_of(j.set),
    }
}
