// The schedule read off: at each vertex the first child whose lead and least are together the least of its parent.
ghost use Rattle.std.specs.Prelude.{◌≡◌, true, ℕ, suc, ◌-◌, ◌*◌, ◌^◌, ◌<◌, ◌≤◌, length, replicate, MatchOption};
ghost use Rattle.std.proofs.Math.Option.{some};
ghost use Rattle.schedule.specs.Quantities.{jobs};
ghost use Rattle.schedule.specs.Visiting.{Vertex};
ghost use Rattle.flat.specs.inside.Flat.{recorder_of};
ghost use Rattle.latest.specs.inside.Sets.{has};
ghost use Rattle.latest.specs.inside.Latest.{latest_of};
ghost use Rattle.value.specs.inside.Leasts.{lead_of, least_of, via_child, FirstChild};
ghost use Rattle.least.specs.inside.Shown.{Shows, ShownAt};
ghost use Rattle.least.specs.Effort.{most_of};
ghost use Rattle.least.specs.inside.Outcome.{recorder, Lent, LentTo, Offers, Came, ReadOff};
ghost use Rattle.least.specs.inside.Readings.{Hit, First, Nowhere, Reads};

use crate::search::{NEVER, Search, Stop, enter, last_of, least};
use extras::rise_of;
use flat::{Flat, job_count, release_of, run_of};
use latest::{Table, all_jobs, has, power};
use vertex::cells::{Cells, place, root_of};
use vertex::gaps::lead_of;

// A job and its start.
#[derive(Clone, Copy)]
pub struct Child {
    pub job: usize,
    pub start: u32,
}

// Whether the child that places job j at s has `goal` in all.
fn hits(
    search: &Search,
    memory: &mut [u64],
    entered: &mut u32,
    v: &Cells,
    set: usize,
    j: usize,
    s: u32,
    lead: u32,
    goal: u32,
) -> Result<bool, Stop>
    requires { LentTo search.now memory.old × ((entered.old ≤ search.now.budget) × (Offers (recorder search.now) v.now set j s × (goal ≤ 2147450880))) }
    ensures lent { LentTo search.now memory.new × (entered.new ≤ search.now.budget) }
    ensures answer { (m : ℕ) (u : Vertex) → Shows (recorder search.now) v.now set (suc m) u → u.time ≤ s → lead ≡ lead_of (recorder search.now) u j s → Came search.now.budget entered.old entered.new (most_of (recorder search.now) m 0) (Hit goal (via_child (recorder search.now) m u j s)) result }
{
    if goal < lead {
        return Ok(false);
    }
    let x = enter(search, memory, entered, v, set, j, s, goal - lead + 1)?;
    Ok(lead + x == goal)
}

// The first start of job j with which the extras to come are `goal`.
fn first_start(
    search: &Search,
    memory: &mut [u64],
    entered: &mut u32,
    v: &Cells,
    set: usize,
    j: usize,
    time: u32,
    goal: u32,
) -> Result<Option<u32>, Stop>
    requires { LentTo search.now memory.old × ((entered.old ≤ search.now.budget) × (ShownAt (recorder search.now) v.now set time × ((goal ≤ 2147450880) × ((j < jobs (recorder search.now)) × (has set j ≡ true))))) }
    ensures lent { LentTo search.now memory.new × (entered.new ≤ search.now.budget) }
    ensures answer { (m : ℕ) (u : Vertex) → Shows (recorder search.now) v.now set (suc m) u → u.time ≡ time → Came search.now.budget entered.old entered.new ((recorder search.now).horizon * most_of (recorder search.now) m 0) (λ x. MatchOption x (Nowhere (recorder search.now) m u j goal) (First (recorder search.now) m u j goal)) result }
{
    let from = time.max(u32::from(release_of(search.r, j)));
    let to = last_of(search, set - power(j), j);
    for s in from..to {
        let lead = lead_of(search.r, search.extras, v, j, s);
        if hits(search, memory, entered, v, set, j, s, lead, goal)? {
            return Ok(Some(s));
        }
    }
    Ok(None)
}

// The first child with which they are.
fn first_child(
    search: &Search,
    memory: &mut [u64],
    entered: &mut u32,
    v: &Cells,
    set: usize,
    time: u32,
    goal: u32,
) -> Result<Child, Stop>
    requires { LentTo search.now memory.old × ((entered.old ≤ search.now.budget) × (ShownAt (recorder search.now) v.now set time × (goal ≤ 2147450880))) }
    ensures lent { LentTo search.now memory.new × (entered.new ≤ search.now.budget) }
    ensures answer { (m : ℕ) (u : Vertex) → Shows (recorder search.now) v.now set (suc m) u → u.time ≡ time → least_of (recorder search.now) (suc m) u ≡ some goal → Came search.now.budget entered.old entered.new (jobs (recorder search.now) * ((recorder search.now).horizon * most_of (recorder search.now) m 0)) (λ c. FirstChild (recorder search.now) m u c.job c.start) result }
{
    for j in 0..job_count(search.r) {
        if has(set, j) {
            if let Some(start) = first_start(search, memory, entered, v, set, j, time, goal)? {
                return Ok(Child { job: j, start });
            }
        }
    }
    // Never: some child has the goal.
    Err(Stop)
}

// The starts of the first of the least, whose extras are `total` below the root.
fn read_off(
    search: &Search,
    memory: &mut [u64],
    entered: &mut u32,
    root: &Cells,
    all: usize,
    total: u32,
) -> Result<[u16; 16], Stop>
    requires { LentTo search.now memory.old × ((entered.old ≤ search.now.budget) × Reads (recorder search.now) root.now (replicate 16 0) all 0 total entered.old) }
    ensures { ReadOff (recorder search.now) search.now.budget result }
{
    let mut starts = [0u16; 16];
    let mut v = *root;
    let mut set = all;
    let mut time: u32 = 0;
    let mut goal = total;
    while 0 < set {
        let c = first_child(search, memory, entered, &v, set, time, goal)?;
        let j = c.job;
        let s = c.start;
        goal -= lead_of(search.r, search.extras, &v, j, s);
        starts[j] = (s % 65536) as u16;
        place(search.r, &mut v, j, s);
        time = s + u32::from(run_of(search.r, j));
        set -= power(j);
    }
    Ok(starts)
}

// By how much more than asked is looked for: eight of the steepest rise.
fn lift_of(extras: &[u32]) -> u32
    requires { 40 ≤ length extras.now }
{
    let mut most = 0;
    for k in 0..8 {
        most = most.max(rise_of(extras, k));
    }
    most % 268435456 * 8
}

// The starts of the first of the least-energy schedules, by job number.
pub fn least_starts(
    r: &Flat,
    extras: &[u32],
    latest: &Table,
    memory: &mut [u64],
    budget: u32,
) -> Result<[u16; 16], Stop>
    requires { Lent (recorder_of r.now) extras.now latest.now memory.old × (0 < latest_of (recorder_of r.now) (2 ^ jobs (recorder_of r.now) - 1)) }
    ensures { ReadOff (recorder_of r.now) budget result }
{
    let lift = lift_of(extras);
    let search = Search {
        r,
        extras,
        latest,
        budget,
        lift,
    };
    let root = root_of(r);
    let all = all_jobs(r);
    let mut entered = 0;
    let total = least(&search, memory, &mut entered, &root, all, 0, NEVER)?;
    read_off(&search, memory, &mut entered, &root, all, total)
}
