// From which start on the cuts drop every child that places a job: by cut A or its deadline at first (rule 43), then by cut B (rule 45).
ghost use Rattle.std.specs.Prelude.{◌≡◌, ◌⊎◌, ℕ, suc, ◌+◌, ◌-◌, ◌<◌, ◌≤◌, min, is_err};
ghost use Rattle.schedule.specs.Quantities.{Valid, deadline, run};
ghost use Rattle.flat.specs.inside.Flat.{recorder_of};
ghost use Rattle.extras.specs.inside.Tabled.{Tabled};
ghost use Rattle.vertex.specs.inside.Shown.{load_at, leads_by, Ordered};
ghost use Rattle.vertex.specs.inside.Sums.{limit_for};
ghost use Rattle.visit.specs.inside.Lent.{Added};

use crate::place::{Child, Place, Search};
use crate::tally::{Stopped, Tally, add_count};
use base::JobNumber;
use flat::{deadline_of, horizon_of, run_of};
use vertex::cells::LOAD;
use vertex::dues::{Dues, limit_of};
use vertex::gaps::least_of;

// Up to which start of job j, it not included, children need be looked at one by one: from there on cut A drops them, or the job misses its deadline.
pub fn first_cut(search: Search, place: Place, dues: Dues, j: JobNumber) -> u32
    requires { Valid (recorder_of search.r.now) × ((j.0 < 16) × ((run (recorder_of search.r.now) j.0 ≤ load_at place.v.now) × (load_at place.v.now ≤ (recorder_of search.r.now).horizon))) }
    ensures { result ≡ min (limit_for (recorder_of search.entry.r.now).horizon (load_at place.entry.v.now - run (recorder_of search.entry.r.now) j.0) dues j.0) (deadline (recorder_of search.entry.r.now) j.0) + 1 - run (recorder_of search.entry.r.now) j.0 }
{
    let c = u32::from(run_of(search.r, j.0));
    let h = u32::from(horizon_of(search.r));
    let limit = limit_of(dues, h, place.v[LOAD] - c, j);
    let last = limit.min(u32::from(deadline_of(search.r, j.0)));
    (last + 1).saturating_sub(c)
}

// The same, once a child stands at its start: where cut B drops it, and would drop it at the least floor of all from here on too, it drops them all.
pub fn cut_at(search: Search, place: Place, best: u32, child: Child, cut: u32) -> u32
    requires { Tabled (recorder_of search.r.now) search.extras.now × ((place.from ≤ 2147450880) × ((child.j.0 < 16) × Ordered (recorder_of search.r.now) place.v.now child.s)) }
    ensures { (result ≡ cut) ⊎ ((result ≡ child.s) × ((t : ℕ) → child.s ≤ t → t ≤ (recorder_of search.entry.r.now).horizon → best ≤ place.entry.from + leads_by (recorder_of search.entry.r.now) place.entry.v.now child.j.0 t)) }
{
    if best <= child.floor {
        let least = place.from + least_of(search.r, search.extras, place.v, child.j.0, child.s);
        if best <= least {
            return child.s;
        }
    }
    cut
}

// The starts of job j from `start` on, at which every child is dropped: they are counted at once, if the budget has them.
pub fn drops(search: Search, tally: &mut Tally, j: JobNumber, start: u32) -> Result<(), Stopped>
    requires { (j.0 < 16) × ((start ≤ 65536) × (tally.old.count ≤ search.budget)) }
    ensures { Added search.entry.budget (suc (deadline (recorder_of search.entry.r.now) j.0) - (start + run (recorder_of search.entry.r.now) j.0)) tally.old tally.new (is_err result) }
{
    let c = u32::from(run_of(search.r, j.0));
    let d = u32::from(deadline_of(search.r, j.0));
    add_count(tally, search.budget, (d + 1).saturating_sub(start + c))
}
