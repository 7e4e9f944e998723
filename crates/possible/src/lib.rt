// Whether a request has a plan, whatever it costs: the first schedule that is found, or the word that there is none. `any_plan` asks nothing of its caller;
// specs/Promises.antt says its complete outcome.
#![tactic(auto)]

ghost use Rattle.std.specs.Prelude.{◌≡◌};
ghost use Rattle.schedule.specs.Quantities.{Valid};
ghost use Rattle.planner.specs.Answers.{answered};
ghost use Rattle.possible.specs.inside.Bare.{idle_job, Bare};
ghost use Rattle.possible.specs.Promises.{PossibleOf, Possible};

use planner::{Figures, Refusal};
use request::read;
use schedule::{Job, Recorder};

// The same job, which uses no device.
fn idle_job(job: Job) -> Job
    ensures { result ≡ idle_job job }
{
    Job {
        uses: [false; 8],
        ..job
    }
}

// The recorder without its devices: they play no part in whether there is a plan, and without them the search remembers by its unplaced jobs and the time alone.
fn without_devices(r: Recorder) -> Recorder
    requires { Valid r }
    ensures { Bare r result }
{
    let mut devices = r.devices;
    devices.count = 0;
    let mut jobs = r.jobs;
    for j in 0..16 {
        jobs.list[j] = idle_job(jobs.list[j]);
    }
    Recorder { devices, jobs, ..r }
}

// The first schedule of a recorder.
pub fn first_schedule(r: Recorder, budget: u32, starts: &mut [u16]) -> Result<Figures, Refusal>
    requires { Valid r }
    ensures { PossibleOf budget starts.old r (answered result) starts.new }
{
    let found = visit::first(without_devices(r), budget, starts)?;
    Ok(Figures {
        horizon: r.horizon,
        energy: found.energy,
        count: found.count,
    })
}

// Writes the start times of the first of all schedules that meet all deadlines, if the budget covers the vertices that it takes to find it.
pub fn any_plan(file: &[u8], budget: u32, starts: &mut [u16]) -> Result<Figures, Refusal>
    ensures { Possible file.now budget starts.old (answered result) starts.new }
{
    first_schedule(read(file)?, budget, starts)
}
