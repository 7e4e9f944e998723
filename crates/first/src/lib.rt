// The first of all schedules that meet all deadlines, whatever they cost, for every request and without a budget. `first_plan` asks nothing of its caller;
// specs/Promises.antt says its complete outcome.
#![tactic(auto)]

ghost use Rattle.schedule.specs.Quantities.{Valid};
ghost use Rattle.planner.specs.Answers.{answered};
ghost use Rattle.first.specs.Promises.{FirstOf, FirstPlan};

use base::Reason;
use flat::flat_of;
use latest::leading::lay_starts;
use latest::{all_jobs, lay_latest};
use planner::{Figures, Refusal};
use request::read;
use schedule::Recorder;

// The first schedule of a recorder.
pub fn first_of(r: Recorder, starts: &mut [u16]) -> Result<Figures, Refusal>
    requires { Valid r }
    ensures { FirstOf starts.old r (answered result) starts.new }
{
    let n = r.jobs.count;
    if starts.len() < n {
        return Err(Refusal::from(Reason::NoRoom));
    }
    let flat = flat_of(r);
    let mut table = [0u16; 65536];
    lay_latest(&flat, &mut table);
    if table[all_jobs(&flat)] == 0 {
        return Err(Refusal::from(Reason::NoSchedule));
    }
    lay_starts(&flat, &table, starts);
    Ok(Figures {
        horizon: r.horizon,
        energy: 0,
        count: 0,
    })
}

// Writes the start times of the first of all schedules that meet all deadlines.
pub fn first_plan(file: &[u8], starts: &mut [u16]) -> Result<Figures, Refusal>
    ensures { FirstPlan file.now starts.old (answered result) starts.new }
{
    first_of(read(file)?, starts)
}
