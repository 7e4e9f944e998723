// The first of the least-energy schedules of a request, worked out with a memory that the caller lends. `least_plan` asks nothing of its caller; specs/Promises.antt
// says its complete outcome, but for what the memory holds where a plan was looked for, and whether the memory was enough for one.
#![tactic(auto)]

ghost use Rattle.std.specs.Prelude.{◌≡◌, ◌++◌, ◌-◌, ◌^◌, ◌<◌, ◌≤◌, Ok, ltb, get_or, length, drop};
ghost use Rattle.schedule.specs.Quantities.{Valid, jobs};
ghost use Rattle.schedule.specs.Listing.{Feasible};
ghost use Rattle.schedule.specs.Visiting.{plan_energy};
ghost use Rattle.flat.specs.inside.Flat.{recorder_of};
ghost use Rattle.latest.specs.inside.Latest.{latest_of, Laid};
ghost use Rattle.planner.specs.Answers.{answered};
ghost use Rattle.planner.specs.Promises as Promises;
ghost use Rattle.planner.specs.Promises.{KeptUnless};
ghost use Rattle.least.specs.inside.Outcome.{ReadOff};
ghost use Rattle.cheapest.specs.Promises.{LeastOf, LeastPlanned, CountedLeastOf, Sought, LeastPlannedIn};

use base::Reason;
use extras::laying::lay_extras;
use flat::{Flat, flat_of};
use latest::{Table, lay_latest, power};
use least::reading::least_starts;
use least::search::Stop;
use planner::{Figures, Refusal, search_in_of};
use request::read;
use schedule::{Recorder, plan_energy};
use stored::clear;

// Whether all n jobs can be run from tick 0 on.
fn is_possible(latest: &Table, n: usize) -> bool
    requires { n ≤ 16 }
    ensures { result ≡ ltb 0 (get_or latest.now (2 ^ n - 1) 0) }
{
    let last = latest[power(n) - 1];
    0 < last
}

// The search, with what it is lent made ready.
fn find(r: &Flat, latest: &Table, budget: u32, memory: &mut [u64]) -> Result<[u16; 16], Stop>
    requires { Valid (recorder_of r.now) × (Laid (recorder_of r.now) latest.now × (0 < latest_of (recorder_of r.now) (2 ^ jobs (recorder_of r.now) - 1))) }
    ensures { ReadOff (recorder_of r.now) budget result }
{
    let mut extras = [0u32; 32976];
    lay_extras(r, &mut extras);
    clear(memory);
    least_starts(r, &extras, latest, memory, budget)
}

// Copies the starts into the front of the lent list.
fn copy(s: &[u16], out: &mut [u16])
    requires { length s.now ≤ length out.old }
    ensures { out.new ≡ s.now ++ drop (length s.now) out.old }
{
    out[..s.len()].copy_from_slice(s);
}

// The schedule that is found, written into the lent list, and its energy.
fn give(r: Recorder, s: &[u16], starts: &mut [u16]) -> Figures
    requires { Valid r × (Feasible r s.now × (length s.now ≤ length starts.old)) }
    ensures { (answered (Ok result) ≡ Promises.success r.horizon (plan_energy r s.now) 0) × (starts.new ≡ s.now ++ drop (length s.now) starts.old) }
{
    copy(s, starts);
    Figures {
        horizon: r.horizon,
        energy: plan_energy(r, s),
        count: 0, // nothing is counted
    }
}

// What the search that counts finds, without its count: it gives up only where the budget is below the vertices of the visiting order.
fn counted(
    r: Recorder,
    budget: u32,
    memory: &mut [u64],
    starts: &mut [u16],
) -> Result<Figures, Refusal>
    requires { Valid r × ((0 < jobs r) × ((jobs r ≤ length starts.old) × (0 < latest_of r (2 ^ jobs r - 1)))) }
    ensures counted { CountedLeastOf budget starts.old r (answered result) starts.new }
    ensures sought { Sought (answered result) }
{
    let found = search_in_of(r, budget, memory, starts)?;
    Ok(Figures {
        horizon: r.horizon,
        energy: found.energy,
        count: 0,
    })
}

// The first of the least-energy schedules of a recorder that has one, where there is room for its starts. Where the search that remembers gives up, the one that counts
// has the same budget and memory.
fn least_with(
    r: Recorder,
    flat: &Flat,
    latest: &Table,
    budget: u32,
    memory: &mut [u64],
    starts: &mut [u16],
) -> Result<Figures, Refusal>
    requires { Valid r × ((recorder_of flat.now ≡ r) × (Laid r latest.now × ((jobs r ≤ length starts.old) × (0 < latest_of r (2 ^ jobs r - 1))))) }
    ensures counted { CountedLeastOf budget starts.old r (answered result) starts.new }
    ensures sought { Sought (answered result) }
{
    let n = r.jobs.count;
    let Ok(found) = find(flat, latest, budget, memory) else {
        return counted(r, budget, memory, starts);
    };
    Ok(give(r, &found[..n], starts))
}

// The same of any recorder.
pub fn least_of(
    r: Recorder,
    budget: u32,
    memory: &mut [u64],
    starts: &mut [u16],
) -> Result<Figures, Refusal>
    requires { Valid r }
    ensures planned { LeastOf budget starts.old r (answered result) starts.new }
    ensures counted { CountedLeastOf budget starts.old r (answered result) starts.new }
    ensures lent { KeptUnless (Sought (answered result)) memory.old memory.new }
{
    let n = r.jobs.count;
    if starts.len() < n {
        return Err(Refusal::from(Reason::NoRoom));
    }
    let flat = flat_of(r);
    let mut latest = [0u16; 65536];
    lay_latest(&flat, &mut latest);
    if !is_possible(&latest, n) {
        return Err(Refusal::from(Reason::NoSchedule));
    }
    least_with(r, &flat, &latest, budget, memory, starts)
}

// Writes the start times of the first of the least-energy schedules that meet all deadlines. The memory may hold anything and be of any length: the more, the
// faster. It is written to only where a plan is looked for.
pub fn least_plan(
    file: &[u8],
    budget: u32,
    memory: &mut [u64],
    starts: &mut [u16],
) -> Result<Figures, Refusal>
    ensures planned { LeastPlanned file.now budget starts.old (answered result) starts.new }
    ensures lent { LeastPlannedIn file.now budget memory.old starts.old (answered result) memory.new starts.new }
{
    least_of(read(file)?, budget, memory, starts)
}
