// The first run of all jobs, job by job: of those that can go first the one with the smallest number, at its earliest start. Nothing is ever taken back.
ghost use Rattle.std.specs.Prelude.{◌-◌, ◌^◌, ◌<◌, ◌≤◌, length};
ghost use Rattle.schedule.specs.Quantities.{Valid, jobs};
ghost use Rattle.flat.specs.inside.Flat.{recorder_of};
ghost use Rattle.latest.specs.inside.Latest.{latest_of, Laid, Leads, Led};

use crate::{Table, all_jobs, offered, power};
use flat::{Flat, job_count, release_of, run_of};

// The job that goes first, of the set m from time t on.
fn first_job(r: &Flat, table: &Table, t: u16, m: usize) -> usize
    requires { Valid (recorder_of r.now) × (Laid (recorder_of r.now) table.now × ((0 < m) × ((m < 2 ^ jobs (recorder_of r.now)) × (t < latest_of (recorder_of r.now) m)))) }
    ensures { Leads (recorder_of r.now) t m result }
{
    for j in 0..job_count(r) {
        if t < offered(r, table, m, j, 0) {
            return j;
        }
    }
    unreachable!()
}

// Writes the starts of the first run of all jobs into the lent list, by job number.
pub fn lay_starts(r: &Flat, table: &Table, starts: &mut [u16])
    requires { Valid (recorder_of r.now) × (Laid (recorder_of r.now) table.now × ((jobs (recorder_of r.now) ≤ length starts.old) × (0 < latest_of (recorder_of r.now) (2 ^ jobs (recorder_of r.now) - 1)))) }
    ensures { Led (recorder_of r.now) starts.old starts.new }
{
    let mut t: u16 = 0;
    let mut m = all_jobs(r);
    while 0 < m {
        let j = first_job(r, table, t, m);
        let s = t.max(release_of(r, j));
        starts[j] = s;
        t = s + run_of(r, j);
        m = m - power(j);
    }
}
