// Cut A (rule 43) as one comparison: the latest time at which a child passes it depends on its parent and its job alone. No device plays a part here.
ghost use Rattle.std.specs.Prelude.{◌≡◌, ◌≤◌};
ghost use Rattle.schedule.specs.Quantities.{jobs};
ghost use Rattle.flat.specs.inside.Flat.{recorder_of};
ghost use Rattle.extras.specs.inside.Tabled.{Tabled};
ghost use Rattle.vertex.specs.inside.Lasts.{TwoLeast};
ghost use Rattle.vertex.specs.inside.Sums.{due_with, limit_for};

use base::JobNumber;
use extras::last_start;
use flat::{Flat, job_count};

// The two smallest last starts of the unplaced jobs, and the job of the smaller one: they tell the smallest without any one job.
#[derive(Clone, Copy)]
pub struct Dues {
    pub at: JobNumber,
    pub first: u32,
    pub second: u32,
}

// The same with job j, whose last start is x.
fn due_with(d: Dues, j: JobNumber, x: u32) -> Dues
    ensures { result ≡ due_with d j x }
{
    if x < d.first {
        Dues {
            at: j,
            first: x,
            second: d.first,
        }
    } else {
        let second = d.second.min(x);
        Dues { second, ..d }
    }
}

// The two smallest over the jobs of a set.
pub fn dues_in(r: &Flat, extras: &[u32], set: usize) -> Dues
    requires { Tabled (recorder_of r.now) extras.now }
    ensures { TwoLeast (recorder_of r.now) set (jobs (recorder_of r.now)) result }
{
    let n = job_count(r);
    let mut dues = Dues {
        at: JobNumber(0),
        first: 65536,
        second: 65536,
    };
    let mut rest = set;
    for i in 0..n {
        if rest % 2 == 1 {
            dues = due_with(dues, JobNumber(i), last_start(extras, i));
        }
        rest = rest / 2;
    }
    dues
}

// The last time at which cut A spares a child that places job j, where the other unplaced jobs run for `rest` ticks.
pub fn limit_of(d: Dues, h: u32, rest: u32, j: JobNumber) -> u32
    requires { rest ≤ h }
    ensures { result ≡ limit_for h rest d j.0 }
{
    let at = d.at;
    if at.0 == j.0 {
        (h - rest).min(d.second)
    } else {
        (h - rest).min(d.first)
    }
}
