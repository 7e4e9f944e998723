// Whether a recorder can be stepped (rule 96): refusals 25 and 24.
ghost use Rattle.std.specs.Prelude.{◌≡◌, ◌≤◌, eqb};
ghost use Rattle.base.specs.Bytes.{byte_at};
ghost use Rattle.base.specs.Reasons.{number_in};
ghost use Rattle.schedule.specs.inside.Judging.{Decides};
ghost use Rattle.schedule.specs.Quantities.{Valid};
ghost use Rattle.stepper.specs.Promises.{Brief};
ghost use Rattle.stepper.specs.inside.Fitness.{Fitness, Unlike, Outrun};

use base::Reason;
use schedule::{Devices, Job, Recorder};

// Whether the file begins with FF.
fn is_marked(file: &[u8]) -> bool
    ensures { result ≡ eqb (byte_at file.now 0) 255 }
{
    !file.is_empty() && file[0] == 255
}

// Whether some device costs as much to move as to work, or more. (That moving costs more than sleep is rule 3's.)
fn has_unlike(r: Recorder) -> bool
    requires { Valid r }
    ensures { Decides (Unlike r) result }
{
    let devices = r.devices;
    for k in 0..devices.count {
        let d = devices.list[k];
        if d.pw <= d.pd {
            return true;
        }
    }
    false
}

// Whether a job is shorter than a move of some device, whether it uses it or not.
fn is_outrun(devices: Devices, job: Job) -> bool
    requires { devices.count ≤ 8 }
    ensures { Decides (Outrun devices job.run) result }
{
    for k in 0..devices.count {
        let d = devices.list[k];
        if job.run < d.shut as u16 {
            return true;
        }
    }
    false
}

// Whether some job is shorter than a move of some device.
fn has_brief(r: Recorder) -> bool
    requires { Valid r }
    ensures { Decides (Brief r) result }
{
    let devices = r.devices;
    let jobs = r.jobs;
    for j in 0..jobs.count {
        if is_outrun(devices, jobs.list[j]) {
            return true;
        }
    }
    false
}

// Whether the recorder of a file can be stepped.
pub fn unfit(file: &[u8], r: Recorder) -> Result<(), Reason>
    requires { Valid r }
    ensures { Fitness file.now r (number_in result) }
{
    if is_marked(file) || has_unlike(r) {
        return Err(Reason::UnlikePowers);
    }
    if has_brief(r) {
        return Err(Reason::BriefJob);
    }
    Ok(())
}
