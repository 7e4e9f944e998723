// The search for the cheapest schedule, and for the first one whatever it costs: depth first, under a budget of vertices (rules 40 to 48, 60 to 63).
#![tactic(auto)]

ghost use Rattle.std.specs.Prelude.{◌≡◌, true, ◌++◌, ℕ, ◌<◌, ◌≤◌, length, drop};
ghost use Rattle.base.specs.Lists.{up_to};
ghost use Rattle.schedule.specs.Quantities.{Valid};
ghost use Rattle.schedule.specs.Visiting.{visited};
ghost use Rattle.extras.specs.inside.Tabled.{Room};
ghost use Rattle.visit.specs.inside.Stops.{visited_by};
ghost use Rattle.visit.specs.inside.Lent.{best_at, count_in, Finds, KeptWithin};

use crate::stages::laid_visit;
use crate::tally::{NONE, Tally, begin};
use base::Reason;
use flat::lay_flat;
use schedule::Recorder;

mod cuts; // cuts.rt: from which start on all children are dropped
mod place; // place.rt: what the search reads, a vertex, and a child of it
mod stages; // stages.rt: the whole visit, with a table and a memory
mod tally; // tally.rt: the count, the best so far and the starts of the placed jobs
mod walk; // walk.rt: the visit of a vertex and of all below it

// What the search finds: the energy of a cheapest schedule, and how many vertices it counted.
#[derive(Clone, Copy, PartialEq, Eq)]
pub struct Found {
    pub energy: u32,
    pub count: u32,
}

// Why it finds none, and how many vertices it counted.
#[derive(Clone, Copy, PartialEq, Eq)]
pub struct Unfound {
    pub reason: Reason,
    pub count: u32,
}

// Writes the first n starts of the best into the lent list.
fn write_starts(tally: &Tally, n: usize, out: &mut [u16])
    requires { (n ≤ 16) × ((n ≤ length out.old) × ((j : ℕ) → j < n → best_at tally.now j < 65536)) }
    ensures { out.new ≡ up_to (best_at tally.now) n ++ drop n out.old }
{
    for j in 0..n {
        out[j] = (tally.best[j] % 65536) as u16;
    }
}

// What a visit finds, by job number into the lent list: the first of the cheapest schedules, or where it stops the first of all; or 15, then 20, then 19, and the list
// as it was.
fn found_by(
    r: Recorder,
    stop: bool,
    budget: u32,
    extras: &mut [u32],
    memory: &mut [u64],
    own: bool,
    out: &mut [u16],
) -> Result<Found, Unfound>
    requires { Valid r × Room r extras.old }
    ensures finds { Finds r (visited_by r stop) budget out.old result out.new }
    ensures within { KeptWithin (count_in result) memory.old memory.new }
{
    let jobs = r.jobs;
    let n = jobs.count;
    if out.len() < n {
        return Err(Unfound {
            reason: Reason::NoRoom,
            count: 0,
        });
    }
    let mut flat = [0u16; 320];
    lay_flat(r, &mut flat);
    let mut tally = begin(stop);
    let Ok(()) = laid_visit(&flat, extras, memory, own, &mut tally, stop, budget) else {
        return Err(Unfound {
            reason: Reason::Budget,
            count: budget,
        });
    };
    if tally.energy == NONE {
        return Err(Unfound {
            reason: Reason::NoSchedule,
            count: tally.count,
        });
    }
    write_starts(&tally, n, out);
    Ok(Found {
        energy: tally.energy,
        count: tally.count,
    })
}

// The first of the cheapest schedules, by a table with room for the horizon: a short one of 208 + 8 * 127 numbers, which is ready sooner, where that will do.
fn found_within(
    r: Recorder,
    budget: u32,
    memory: &mut [u64],
    own: bool,
    out: &mut [u16],
) -> Result<Found, Unfound>
    requires { Valid r }
    ensures finds { Finds r (visited r) budget out.old result out.new }
    ensures within { KeptWithin (count_in result) memory.old memory.new }
{
    if r.horizon <= 127 {
        let mut extras = [0u32; 1224];
        return found_by(r, false, budget, &mut extras, memory, own, out);
    }
    let mut extras = [0u32; 32976];
    found_by(r, false, budget, &mut extras, memory, own, out)
}

// The first of the cheapest schedules.
pub fn search(r: Recorder, budget: u32, out: &mut [u16]) -> Result<Found, Unfound>
    requires { Valid r }
    ensures { Finds r (visited r) budget out.old result out.new }
{
    let mut none = [0u64; 1];
    found_within(r, budget, &mut none, true, out)
}

// The same with a memory that is lent, of any length and whatever it holds: the more, the faster. It is written to only where a few vertices do not suffice.
pub fn search_in(
    r: Recorder,
    budget: u32,
    memory: &mut [u64],
    out: &mut [u16],
) -> Result<Found, Unfound>
    requires { Valid r }
    ensures finds { Finds r (visited r) budget out.old result out.new }
    ensures within { KeptWithin (count_in result) memory.old memory.new }
{
    found_within(r, budget, memory, false, out)
}

// The first of all schedules of a recorder that has no device: nothing costs anything, and the table holds no extras.
pub fn first(r: Recorder, budget: u32, out: &mut [u16]) -> Result<Found, Unfound>
    requires { Valid r × (r.devices.count ≡ 0) }
    ensures { Finds r (visited_by r true) budget out.old result out.new }
{
    let mut none = [0u64; 1];
    let mut extras = [0u32; 208];
    found_by(r, true, budget, &mut extras, &mut none, true, out)
}
