// The visit, depth first (rules 40 to 48): a visit calls a loop over choices, which calls the visit of each child that is not dropped at once with all later starts of
// its job, nor counted by what is remembered. The parent is lent for reading, and a child is made only where no cut drops it and jobs are left to place.
ghost use Rattle.std.specs.Prelude.{◌≡◌, Bool, true, false, cond, ◌^◌, ◌<◌, is_err};
ghost use Rattle.schedule.specs.Quantities.{jobs};
ghost use Rattle.schedule.specs.Visiting as order;
ghost use Rattle.flat.specs.inside.Flat.{recorder_of};
ghost use Rattle.latest.specs.inside.Sets.{has};
ghost use Rattle.extras.specs.inside.Tabled.{cap_at};
ghost use Rattle.vertex.specs.inside.Lasts.{TwoLeast};
ghost use Rattle.recall.specs.inside.Asks.{Asks};
ghost use Rattle.visit.specs.inside.Stops.{visited_by};
ghost use Rattle.visit.specs.inside.Lent.{Long, Leaves, StandsAt, VisitCame, EnterCame, ChoicesCame, StartsCame, count_at, energy_at, stop_at, slack_by, Lends, Came, Tries, Enters, Some};

use crate::cuts::{cut_at, drops, first_cut};
use crate::place::{Child, Place, Search};
use crate::tally::{NONE, Stopped, Tally, add_count, count_one, go_on, note, offer};
use base::JobNumber;
use flat::{Flat, horizon_of, job_count, release_of, run_of};
use latest::all_jobs;
use recall::asking::{Asked, ask};
use recall::memory::keep;
use vertex::cells::{Cells, LOAD, place as place_job, root_of};
use vertex::dues::{Dues, dues_in};
use vertex::gaps::{close_of, end_of, lead_of, root_floor};

// Whether a set has two jobs or more, and a memory of so many words an entry. Below a vertex with one job the work is less than looking for it.
fn is_many(set: usize, words: usize) -> bool {
    6 <= words && 1 < set.count_ones()
}

// By how much the best lies above a floor; 0 where there is no best.
fn slack_of(best: u32, floor: u32) -> u32
    requires { floor < best }
    ensures { result ≡ slack_by best floor }
{
    if best == NONE { 0 } else { best - floor }
}

// Whether a count may be remembered: it was not cut short, and the best is as it was.
fn is_whole(ended: Result<(), Stopped>, best: u32, after: u32) -> bool
    ensures { result ≡ true → (is_err ended ≡ false) × (after ≡ best) }
{
    ended.is_ok() && best == after
}

// The child of a place that places job j at s, and all below it. From the start `cut` on it is dropped.
#[cycle(below_choices_enter_learn_tries_visit)]
fn visit(
    search: Search,
    memory: &mut [u64],
    tally: &mut Tally,
    place: Place,
    child: Child,
    cut: u32,
) -> Result<(), Stopped>
    requires { Lends (recorder_of search.r.now) search.extras.now memory.old × ((child.p ≡ 2 ^ child.j.0) × Some (recorder_of search.r.now) search.budget tally.old (Tries (recorder_of search.r.now) place.v.now (energy_at tally.old) place.set place.from cut child.floor child.j.0 child.s)) }
    ensures kept { Leaves (recorder_of search.entry.r.now) search.entry.extras.now memory.new tally.old tally.new }
    ensures came { VisitCame (recorder_of search.entry.r.now) search.entry.budget place.entry.v.now tally.old tally.new (is_err result) place.entry.set place.entry.from cut child.floor child.j.0 child.s }
{
    if tally.count == search.budget {
        return Err(Stopped);
    }
    count_one(tally);
    if cut <= child.s {
        return Ok(());
    }
    if tally.energy <= child.floor {
        return Ok(());
    }
    enter(search, memory, tally, place, child, place.set - child.p)
}

// The same child, which is counted and which no cut drops: it is complete, or its children are examined. `left` is the set of the jobs that it leaves unplaced.
#[cycle(below_choices_enter_learn_tries_visit)]
fn enter(
    search: Search,
    memory: &mut [u64],
    tally: &mut Tally,
    place: Place,
    child: Child,
    left: usize,
) -> Result<(), Stopped>
    requires { Lends (recorder_of search.r.now) search.extras.now memory.old × ((child.floor < energy_at tally.old) × Some (recorder_of search.r.now) search.budget tally.old (Enters (recorder_of search.r.now) place.v.now left child.floor child.j.0 child.s)) }
    ensures kept { Leaves (recorder_of search.entry.r.now) search.entry.extras.now memory.new tally.old tally.new }
    ensures came { EnterCame (recorder_of search.entry.r.now) search.entry.budget place.entry.v.now tally.old tally.new (is_err result) left child.floor child.j.0 child.s }
{
    let j = child.j.0;
    let s = child.s;
    note(tally, j, s);
    if left == 0 {
        let e = child.floor + end_of(search.r, search.extras, place.v, j, s);
        offer(tally, e);
        return go_on(tally);
    }
    let mut w = *place.v;
    place_job(search.r, &mut w, j, s);
    let time = s + u32::from(run_of(search.r, j));
    let below_it = Place {
        v: &w,
        set: left,
        from: child.floor,
        time,
    };
    below(search, memory, tally, below_it)
}

// The children of a vertex that is not complete: what is remembered of them, or each of them examined.
#[cycle(below_choices_enter_learn_tries_visit)]
fn below(search: Search, memory: &mut [u64], tally: &mut Tally, place: Place) -> Result<(), Stopped>
    requires { Lends (recorder_of search.r.now) search.extras.now memory.old × ((place.from < energy_at tally.old) × Some (recorder_of search.r.now) search.budget tally.old (StandsAt (recorder_of search.r.now) place.v.now place.set place.from place.time)) }
    ensures kept { Leaves (recorder_of search.entry.r.now) search.entry.extras.now memory.new tally.old tally.new }
    ensures came { ChoicesCame (recorder_of search.entry.r.now) search.entry.budget place.entry.v.now tally.old tally.new (is_err result) place.entry.set place.entry.from place.entry.time }
{
    if !is_many(place.set, memory.len()) {
        return choices(search, memory, tally, place);
    }
    let slack = slack_of(tally.energy, place.from);
    let asked = ask(
        search.r,
        search.extras,
        memory,
        place.v,
        place.set,
        place.time,
        slack,
    );
    match asked.count {
        Some(count) => add_count(tally, search.budget, count),
        None => learn(search, memory, tally, place, asked),
    }
}

// Each of them examined, and remembered where they leave the best as it was.
#[cycle(below_choices_enter_learn_tries_visit)]
fn learn(
    search: Search,
    memory: &mut [u64],
    tally: &mut Tally,
    place: Place,
    asked: Asked,
) -> Result<(), Stopped>
    requires { Lends (recorder_of search.r.now) search.extras.now memory.old × ((place.from < energy_at tally.old) × (Asks (recorder_of search.r.now) (cap_at search.extras.now) place.v.now place.set place.time (slack_by (energy_at tally.old) place.from) asked × Some (recorder_of search.r.now) search.budget tally.old (StandsAt (recorder_of search.r.now) place.v.now place.set place.from place.time))) }
    ensures kept { Leaves (recorder_of search.entry.r.now) search.entry.extras.now memory.new tally.old tally.new }
    ensures came { ChoicesCame (recorder_of search.entry.r.now) search.entry.budget place.entry.v.now tally.old tally.new (is_err result) place.entry.set place.entry.from place.entry.time }
{
    let before = tally.count;
    let best = tally.energy;
    let ended = choices(search, memory, tally, place);
    if is_whole(ended, best, tally.energy) {
        keep(memory, asked.slot, asked.key, tally.count - before);
    }
    ended
}

// Each unplaced job in turn.
#[cycle(below_choices_enter_learn_tries_visit)]
fn choices(
    search: Search,
    memory: &mut [u64],
    tally: &mut Tally,
    place: Place,
) -> Result<(), Stopped>
    requires { Lends (recorder_of search.r.now) search.extras.now memory.old × Some (recorder_of search.r.now) search.budget tally.old (StandsAt (recorder_of search.r.now) place.v.now place.set place.from place.time) }
    ensures kept { Leaves (recorder_of search.entry.r.now) search.entry.extras.now memory.new tally.old tally.new }
    ensures came { ChoicesCame (recorder_of search.entry.r.now) search.entry.budget place.entry.v.now tally.old tally.new (is_err result) place.entry.set place.entry.from place.entry.time }
{
    let n = job_count(search.r);
    let dues = dues_in(search.r, search.extras, place.set);
    let mut rest = place.set;
    let mut p: usize = 1;
    for j in 0..n {
        if rest % 2 == 1 {
            tries(search, memory, tally, place, dues, JobNumber(j), p)?;
        }
        rest = rest / 2;
        p = p * 2;
    }
    Ok(())
}

// Each start of the unplaced job j in turn.
#[cycle(below_choices_enter_learn_tries_visit)]
fn tries(
    search: Search,
    memory: &mut [u64],
    tally: &mut Tally,
    place: Place,
    dues: Dues,
    j: JobNumber,
    p: usize,
) -> Result<(), Stopped>
    requires { Lends (recorder_of search.r.now) search.extras.now memory.old × ((j.0 < jobs (recorder_of search.r.now)) × ((has place.set j.0 ≡ true) × ((p ≡ 2 ^ j.0) × (TwoLeast (recorder_of search.r.now) place.set (jobs (recorder_of search.r.now)) dues × Some (recorder_of search.r.now) search.budget tally.old (StandsAt (recorder_of search.r.now) place.v.now place.set place.from place.time))))) }
    ensures kept { Leaves (recorder_of search.entry.r.now) search.entry.extras.now memory.new tally.old tally.new }
    ensures came { StartsCame (recorder_of search.entry.r.now) search.entry.budget place.entry.v.now tally.old tally.new (is_err result) place.entry.set place.entry.from place.entry.time j.0 }
{
    let mut cut = first_cut(search, place, dues, j);
    let mut s = place.time.max(u32::from(release_of(search.r, j.0)));
    while s < cut {
        let floor = place.from + lead_of(search.r, search.extras, place.v, j.0, s);
        let child = Child { j, p, s, floor };
        cut = cut_at(search, place, tally.energy, child, cut);
        visit(search, memory, tally, place, child, cut)?;
        s += 1;
    }
    drops(search, tally, j, s)
}

// The root and all below it.
pub fn root_visit(
    r: &Flat,
    extras: &[u32],
    memory: &mut [u64],
    tally: &mut Tally,
    budget: u32,
) -> Result<(), Stopped>
    requires { Lends (recorder_of r.now) extras.now memory.old × ((Long tally.old) × ((count_at tally.old ≡ 0) × ((energy_at tally.old ≡ 4294967295) × ((stop : Bool) × (stop_at tally.old ≡ cond stop 1 0))))) }
    ensures { (Long tally.new) × ((stop : Bool) → stop_at tally.old ≡ cond stop 1 0 → Came (recorder_of r.now) stop budget tally.new (order.root (recorder_of r.now)) (visited_by (recorder_of r.now) stop) (is_err result)) }
{
    if budget == 0 {
        return Err(Stopped);
    }
    count_one(tally);
    let v = root_of(r);
    if u32::from(horizon_of(r)) < v[LOAD] {
        return Ok(());
    }
    let floor = root_floor(r, extras, &v);
    let n = job_count(r);
    if n == 0 {
        let e = floor + close_of(r, extras, &v);
        offer(tally, e);
        return go_on(tally);
    }
    let search = Search { r, extras, budget };
    let root = Place {
        v: &v,
        set: all_jobs(r),
        from: floor,
        time: 0,
    };
    choices(search, memory, tally, root)
}
