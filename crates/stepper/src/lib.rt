// Step by step on the recorder: devices that begin a move only at starts and completions, for given start times. `step_through` asks nothing of its caller;
// specs/Promises.antt says its complete outcome. No row is made, and no array is longer than the devices or the jobs.
#![tactic(auto)]

ghost use Rattle.schedule.specs.Quantities.{Valid};
ghost use Rattle.planner.specs.Answers.{answered};
ghost use Rattle.stepper.specs.Promises.{StepsOf, SteppedThrough};

use crate::devices::run_devices;
use crate::fitness::unfit;
use base::Reason;
use planner::{Figures, Refusal};
use request::read;
use schedule::{Recorder, judge};

mod devices; // devices.rt: the devices over a round
mod fitness; // fitness.rt: refusals 25 and 24
mod ordering; // ordering.rt: the jobs in running order, for one device

// The devices of a file's recorder, stepped through the round.
pub fn steps_of(
    file: &[u8],
    r: Recorder,
    starts: &[u16],
    energies: &mut [u32],
) -> Result<Figures, Refusal>
    requires { Valid r }
    ensures { StepsOf file.now starts.now energies.old r (answered result) energies.new }
{
    if starts.len() != r.jobs.count {
        return Err(Refusal::from(Reason::StartCount));
    }
    if energies.len() < r.devices.count {
        return Err(Refusal::from(Reason::NoRoom));
    }
    judge(r, starts)?;
    // A fault of the recorder names no job (rule 96).
    unfit(file, r)?;
    Ok(Figures {
        horizon: r.horizon,
        energy: run_devices(r, starts, energies),
        count: 0,
    })
}

// Steps the devices of a file through its round, at given feasible starts: writes what each device spends, and answers with the sum.
pub fn step_through(file: &[u8], starts: &[u16], energies: &mut [u32]) -> Result<Figures, Refusal>
    ensures { SteppedThrough file.now starts.now energies.old (answered result) energies.new }
{
    steps_of(file, read(file)?, starts, energies)
}
