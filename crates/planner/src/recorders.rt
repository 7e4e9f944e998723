// The operations on a recorder, once its file is read. Each asks that it be valid, as every recorder is that a file is read as.
ghost use Rattle.std.specs.Prelude.{◌≤◌, ◌<◌};
ghost use Rattle.schedule.specs.Quantities.{Valid};
ghost use Rattle.planner.specs.Answers.{answered};
ghost use Rattle.planner.specs.Promises.{SizesOf, MarginsOf, VerdictOf, RowsOf, SearchOf, KeptUnless};

use crate::answers::{Figures, Refusal};
use base::Reason;
use schedule::{Recorder, judge, plan_energy, write_margins, write_rows};

// Writes how many devices, tasks and jobs there are, a byte each; the tasks are not in a recorder, which has the jobs that they release.
pub fn sizes_of(r: Recorder, tasks: usize, out: &mut [u8]) -> Result<Figures, Refusal>
    requires { Valid r × (tasks ≤ 8) }
    ensures { SizesOf tasks out.old r (answered result) out.new }
{
    if out.len() < 3 {
        return Err(Refusal::from(Reason::NoRoom));
    }
    out[0] = r.devices.count as u8;
    out[1] = tasks as u8;
    out[2] = r.jobs.count as u8;
    Ok(Figures {
        horizon: r.horizon,
        energy: 0,
        count: 0,
    })
}

// Writes the margin of each job, for any start times.
pub fn margins_of(r: Recorder, starts: &[u16], out: &mut [i32]) -> Result<Figures, Refusal>
    requires { Valid r }
    ensures { MarginsOf starts.now out.old r (answered result) out.new }
{
    let jobs = r.jobs.count;
    if starts.len() != jobs {
        return Err(Refusal::from(Reason::StartCount));
    }
    if out.len() < jobs {
        return Err(Refusal::from(Reason::NoRoom));
    }
    write_margins(r, starts, out);
    Ok(Figures {
        horizon: r.horizon,
        energy: 0,
        count: 0,
    })
}

// Whether the start times are feasible, with the plan's energy; or their first fault.
pub fn verdict_of(r: Recorder, starts: &[u16]) -> Result<Figures, Refusal>
    requires { Valid r }
    ensures { VerdictOf starts.now r (answered result) }
{
    if starts.len() != r.jobs.count {
        return Err(Refusal::from(Reason::StartCount));
    }
    judge(r, starts)?; // or the first fault
    Ok(Figures {
        horizon: r.horizon,
        energy: plan_energy(r, starts),
        count: 0,
    })
}

// Writes the row of every device, the legal row of least energy, for feasible start times.
pub fn rows_of(r: Recorder, starts: &[u16], out: &mut [u8]) -> Result<Figures, Refusal>
    requires { Valid r }
    ensures { RowsOf starts.now out.old r (answered result) out.new }
{
    if starts.len() != r.jobs.count {
        return Err(Refusal::from(Reason::StartCount));
    }
    let h = r.horizon as usize;
    if out.len() < r.devices.count * h {
        return Err(Refusal::from(Reason::NoRoom));
    }
    judge(r, starts)?;
    Ok(Figures {
        horizon: r.horizon,
        energy: write_rows(r, starts, out),
        count: 0,
    })
}

// Writes the start times of the first of the least-energy schedules that meet all deadlines, if the budget covers the vertices of the search.
pub fn search_of(r: Recorder, budget: u32, starts: &mut [u16]) -> Result<Figures, Refusal>
    requires { Valid r }
    ensures { SearchOf budget starts.old r (answered result) starts.new }
{
    let found = visit::search(r, budget, starts)?;
    Ok(Figures {
        horizon: r.horizon,
        energy: found.energy,
        count: found.count,
    })
}

// The same with a memory that is lent, of any length and whatever it holds: the more, the faster.
pub fn search_in_of(
    r: Recorder,
    budget: u32,
    memory: &mut [u64],
    starts: &mut [u16],
) -> Result<Figures, Refusal>
    requires { Valid r }
    ensures planned { SearchOf budget starts.old r (answered result) starts.new }
    ensures lent { KeptUnless (256 < (answered result).count) memory.old memory.new }
{
    let found = visit::search_in(r, budget, memory, starts)?;
    Ok(Figures {
        horizon: r.horizon,
        energy: found.energy,
        count: found.count,
    })
}
