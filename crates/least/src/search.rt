// The search: least -> learn -> examine -> choices -> tries -> attempt -> enter -> least. It works out a number, the least extras to come of a vertex, as far as they
// are below what is asked for. The parent is lent for reading, and a child is made only where no earlier start rules it out.
ghost use Rattle.std.specs.Prelude.{◌≡◌, true, ◌||◌, ℕ, suc, ◌+◌, ◌-◌, ◌*◌, ◌/◌, ◌%◌, ◌^◌, ◌<◌, ◌≤◌, eqb, leb, get_or};
ghost use Rattle.std.proofs.Math.Option.{Option};
ghost use Rattle.schedule.specs.Quantities.{jobs, release, deadline, run};
ghost use Rattle.schedule.specs.Visiting.{Vertex, child};
ghost use Rattle.latest.specs.inside.Sets.{has};
ghost use Rattle.latest.specs.inside.Latest.{slot};
ghost use Rattle.value.specs.inside.Options.{lesser, least_in, Answers};
ghost use Rattle.value.specs.inside.Leasts.{least_of, via_child, starts_to};
ghost use Rattle.value.proofs.Waits.{least_to};
ghost use Rattle.extras.specs.inside.Tabled.{cap_at};
ghost use Rattle.least.specs.inside.Shown.{key_by, Shows, ShownAt};
ghost use Rattle.least.specs.inside.Entries.{Looked};
ghost use Rattle.least.specs.Effort.{most_of};
ghost use Rattle.least.specs.inside.Outcome.{recorder, LentTo, Offers, Small, Came, Tried};

use crate::leads::{falls_of, wait_of};
use crate::memory::{Spot, look, remember};
use flat::{Flat, deadline_of, job_count, release_of, run_of};
use latest::{Table, has, power, slot_of};
use stored::Key;
use stored::naming::key_of;
use vertex::cells::{Cells, place};
use vertex::gaps::{close_of, lead_of};

// More than any extras: 8 devices, 4,096 ticks, 65,535 a tick are 2,147,450,880. A bound like any other, from which the smallest is sought: no Option.
pub const NEVER: u32 = 2147483647;

// The budget is used up.
#[derive(Clone, Copy)]
pub struct Stop;

// What a search is lent to read; how many vertices it may enter; and by how much more than asked is looked for.
#[derive(Clone, Copy)]
pub struct Search<'a> {
    pub r: &'a Flat,
    pub extras: &'a [u32],
    pub latest: &'a Table,
    pub budget: u32,
    pub lift: u32,
}

// By how much more than asked is looked for: a tight limit makes an answer that is of little use elsewhere.
fn raised(slack: u32, lift: u32) -> u32
    requires { slack ≤ 2147483647 }
    ensures { (slack ≤ result) × (result ≤ 2147483647) }
{
    if lift < NEVER - slack {
        slack + lift
    } else {
        NEVER
    }
}

// Whether what is known answers for what is asked: it is the least itself, or no less than that.
fn is_enough(known: u32, slack: u32) -> bool
    ensures { result ≡ (eqb (known % 2) 1 || leb slack (known / 2)) }
{
    known % 2 == 1 || slack <= known / 2
}

// One more than the last start of job j after which the jobs of the set can still be run; 0 where there is none.
pub fn last_of(search: &Search, set: usize, j: usize) -> u32
    requires { (j < 16) × (set < 65536) }
    ensures { result ≡ slot (release (recorder search.now) j) (deadline (recorder search.now) j) (run (recorder search.now) j) (get_or search.now.latest.now set 0) }
{
    let r = search.r;
    let x = search.latest[set];
    u32::from(slot_of(release_of(r, j), deadline_of(r, j), run_of(r, j), x))
}

// The child that places job j at s.
#[cycle(attempt_choices_enter_examine_learn_least_tries)]
pub fn enter(
    search: &Search,
    memory: &mut [u64],
    entered: &mut u32,
    v: &Cells,
    set: usize,
    j: usize,
    s: u32,
    slack: u32,
) -> Result<u32, Stop>
    requires { LentTo search.now memory.old × ((entered.old ≤ search.now.budget) × (Offers (recorder search.now) v.now set j s × (slack ≤ 2147483647))) }
    ensures lent { LentTo search.now memory.new × (entered.new ≤ search.now.budget) }
    ensures answer { (m : ℕ) (u : Vertex) → Shows (recorder search.now) v.now set (suc m) u → u.time ≤ s → Came search.now.budget entered.old entered.new (most_of (recorder search.now) m 0) (Small (Answers slack (least_of (recorder search.now) m (child (recorder search.now) u j s)))) result }
{
    let mut w = *v;
    place(search.r, &mut w, j, s);
    let end = s + u32::from(run_of(search.r, j));
    least(search, memory, entered, &w, set - power(j), end, slack)
}

// The least extras to come of a vertex: the answer is never more, and where it is below slack it is the least itself.
#[cycle(attempt_choices_enter_examine_learn_least_tries)]
pub fn least(
    search: &Search,
    memory: &mut [u64],
    entered: &mut u32,
    v: &Cells,
    set: usize,
    time: u32,
    slack: u32,
) -> Result<u32, Stop>
    requires { LentTo search.now memory.old × ((entered.old ≤ search.now.budget) × (ShownAt (recorder search.now) v.now set time × (slack ≤ 2147483647))) }
    ensures lent { LentTo search.now memory.new × (entered.new ≤ search.now.budget) }
    ensures answer { (m : ℕ) (u : Vertex) → Shows (recorder search.now) v.now set m u → u.time ≡ time → Came search.now.budget entered.old entered.new (most_of (recorder search.now) m time) (Small (Answers slack (least_of (recorder search.now) m u))) result }
{
    if set == 0 {
        return Ok(close_of(search.r, search.extras, v));
    }
    let key = key_of(search.r, search.extras, v, set, time);
    let spot = look(memory, key);
    if is_enough(spot.known, slack) {
        return Ok(spot.known / 2);
    }
    learn(search, memory, entered, v, set, time, slack, key, spot)
}

// The same of a vertex with jobs unplaced of which too little is known; it is remembered.
#[cycle(attempt_choices_enter_examine_learn_least_tries)]
fn learn(
    search: &Search,
    memory: &mut [u64],
    entered: &mut u32,
    v: &Cells,
    set: usize,
    time: u32,
    slack: u32,
    key: Key,
    spot: Spot,
) -> Result<u32, Stop>
    requires { LentTo search.now memory.old × ((entered.old ≤ search.now.budget) × (ShownAt (recorder search.now) v.now set time × ((slack ≤ 2147483647) × ((0 < set) × ((key ≡ key_by (recorder search.now) (cap_at search.now.extras.now) v.now set time) × Looked memory.old key spot))))) }
    ensures lent { LentTo search.now memory.new × (entered.new ≤ search.now.budget) }
    ensures answer { (m : ℕ) (u : Vertex) → Shows (recorder search.now) v.now set (suc m) u → u.time ≡ time → Came search.now.budget entered.old entered.new (most_of (recorder search.now) (suc m) time) (Small (Answers slack (least_of (recorder search.now) (suc m) u))) result }
{
    let before = *entered;
    if before == search.budget {
        return Err(Stop);
    }
    *entered = before + 1;
    let limit = raised(slack, search.lift);
    let found = examine(search, memory, entered, v, set, time, limit)?;
    let best = found.max(spot.known / 2);
    let work = (*entered).saturating_sub(before);
    remember(memory, spot.slot, key, work, best, limit);
    Ok(best)
}

// The starts before the vertex waits, and the vertex that has waited.
#[cycle(attempt_choices_enter_examine_learn_least_tries)]
fn examine(
    search: &Search,
    memory: &mut [u64],
    entered: &mut u32,
    v: &Cells,
    set: usize,
    time: u32,
    limit: u32,
) -> Result<u32, Stop>
    requires { LentTo search.now memory.old × ((entered.old ≤ search.now.budget) × (ShownAt (recorder search.now) v.now set time × ((limit ≤ 2147483647) × (0 < set)))) }
    ensures lent { LentTo search.now memory.new × (entered.new ≤ search.now.budget) }
    ensures answer { (m : ℕ) (u : Vertex) → Shows (recorder search.now) v.now set (suc m) u → u.time ≡ time → Came search.now.budget entered.old entered.new (((recorder search.now).horizon - time) * suc (jobs (recorder search.now) * most_of (recorder search.now) m 0)) (Small (Answers limit (least_of (recorder search.now) (suc m) u))) result }
{
    let until = wait_of(search.r, search.extras, v, time);
    let near = choices(search, memory, entered, v, set, time, until, limit)?;
    let last = search.latest[set];
    if u32::from(last) <= until {
        return Ok(near);
    }
    let far = least(search, memory, entered, v, set, until, near.min(limit))?;
    Ok(near.min(far))
}

// Each unplaced job in turn, at its starts before `until`.
#[cycle(attempt_choices_enter_examine_learn_least_tries)]
fn choices(
    search: &Search,
    memory: &mut [u64],
    entered: &mut u32,
    v: &Cells,
    set: usize,
    time: u32,
    until: u32,
    limit: u32,
) -> Result<u32, Stop>
    requires { LentTo search.now memory.old × ((entered.old ≤ search.now.budget) × (ShownAt (recorder search.now) v.now set time × ((limit ≤ 2147483647) × (0 < set)))) }
    ensures lent { LentTo search.now memory.new × (entered.new ≤ search.now.budget) }
    ensures answer { (m : ℕ) (u : Vertex) → Shows (recorder search.now) v.now set (suc m) u → u.time ≡ time → Came search.now.budget entered.old entered.new (jobs (recorder search.now) * ((until - time) * most_of (recorder search.now) m 0)) (Small (Answers limit (least_to (recorder search.now) m u until))) result }
{
    let mut best = NEVER;
    for j in 0..job_count(search.r) {
        if has(set, j) {
            best = tries(search, memory, entered, v, set, j, time, until, limit, best)?;
        }
    }
    Ok(best)
}

// The starts of the unplaced job j before `until`, where the least so far is `given`. `ahead` is a bound of the extras to come below the next start: one tick later
// they are lower by `fall` at most.
#[cycle(attempt_choices_enter_examine_learn_least_tries)]
fn tries(
    search: &Search,
    memory: &mut [u64],
    entered: &mut u32,
    v: &Cells,
    set: usize,
    j: usize,
    time: u32,
    until: u32,
    limit: u32,
    given: u32,
) -> Result<u32, Stop>
    requires { LentTo search.now memory.old × ((entered.old ≤ search.now.budget) × (ShownAt (recorder search.now) v.now set time × ((limit ≤ 2147483647) × ((given ≤ 2147483647) × ((j < jobs (recorder search.now)) × (has set j ≡ true)))))) }
    ensures lent { LentTo search.now memory.new × (entered.new ≤ search.now.budget) }
    ensures answer { (m : ℕ) (u : Vertex) (o : Option ℕ) → Shows (recorder search.now) v.now set (suc m) u → u.time ≡ time → Answers limit o given → Came search.now.budget entered.old entered.new ((until - time) * most_of (recorder search.now) m 0) (Small (Answers limit (lesser o (least_in (via_child (recorder search.now) m u j) (starts_to (recorder search.now) u.time until j))))) result }
{
    let from = time.max(u32::from(release_of(search.r, j)));
    let to = until.min(last_of(search, set - power(j), j));
    let fall = falls_of(search.r, search.extras, v, j);
    let mut best = given;
    let mut ahead = 0;
    for s in from..to {
        let lead = lead_of(search.r, search.extras, v, j, s);
        let most = limit.min(best);
        let x = attempt(search, memory, entered, v, set, j, s, most, lead, ahead)?;
        best = best.min(lead + x);
        ahead = x.saturating_sub(fall);
    }
    Ok(best)
}

// A bound of the child that places job j at s: the one that is known, where with it the child can't come below `most`; else the child is entered.
#[cycle(attempt_choices_enter_examine_learn_least_tries)]
fn attempt(
    search: &Search,
    memory: &mut [u64],
    entered: &mut u32,
    v: &Cells,
    set: usize,
    j: usize,
    s: u32,
    most: u32,
    lead: u32,
    ahead: u32,
) -> Result<u32, Stop>
    requires { LentTo search.now memory.old × ((entered.old ≤ search.now.budget) × (Offers (recorder search.now) v.now set j s × ((most ≤ 2147483647) × ((lead ≤ 2147450880) × (ahead ≤ 2147483647))))) }
    ensures lent { LentTo search.now memory.new × (entered.new ≤ search.now.budget) }
    ensures answer { (m : ℕ) (u : Vertex) → Shows (recorder search.now) v.now set (suc m) u → u.time ≤ s → Came search.now.budget entered.old entered.new (most_of (recorder search.now) m 0) (Small (Tried most lead ahead (least_of (recorder search.now) m (child (recorder search.now) u j s)))) result }
{
    if most <= lead + ahead {
        return Ok(ahead);
    }
    let x = enter(search, memory, entered, v, set, j, s, most - lead)?;
    Ok(x.max(ahead))
}
