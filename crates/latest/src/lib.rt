// For each set of jobs the latest time from which all of them can still be run, which decides whether a recorder has any schedule. A set is a number: bit j is set
// where job j is one of it.
#![tactic(auto)]

ghost use Rattle.std.specs.Prelude.{◌≡◌, ◌-◌, ◌^◌, ◌<◌, ◌≤◌, get_or, length};
ghost use Rattle.schedule.specs.Quantities.{Valid, jobs};
ghost use Rattle.flat.specs.inside.Flat.{recorder_of};
ghost use Rattle.latest.specs.inside.Sets.{has};
ghost use Rattle.latest.specs.inside.Latest.{slot, offer, latest_by, Laid};

use flat::{Flat, deadline_of, horizon_of, job_count, release_of, run_of};

pub mod leading; // leading.rt: the first run of all jobs

// By set: 0 for never, else one more than the time.
pub type Table = [u16; 65536];

// The latest start of a job that is over by x and by its deadline.
pub fn slot_of(a: u16, d: u16, c: u16, x: u16) -> u16
    ensures { result ≡ slot a d c x }
{
    let e = x.min(d.saturating_add(1));
    let s = e.saturating_sub(c);
    if a < s { s } else { 0 }
}

// Two to the n.
pub fn power(n: usize) -> usize
    requires { n ≤ 16 }
    ensures { result ≡ 2 ^ n }
{
    1 << n
}

// Whether job j is one of the set m.
pub fn has(m: usize, j: usize) -> bool
    requires { j < 16 }
    ensures { result ≡ has m j }
{
    (m >> j) & 1 == 1
}

// The set of all jobs.
pub fn all_jobs(r: &Flat) -> usize
    requires { Valid (recorder_of r.now) }
    ensures { result ≡ 2 ^ jobs (recorder_of r.now) - 1 }
{
    power(job_count(r)) - 1
}

// The later of best and the latest start of job j, where it is one of m and goes first.
pub(crate) fn offered(r: &Flat, table: &Table, m: usize, j: usize, best: u16) -> u16
    requires { (j < 16) × (m < 65536) }
    ensures { result ≡ offer (recorder_of r.now) (λ i. get_or table.now i 0) m j best }
{
    if !has(m, j) {
        return best;
    }
    let x = table[m - power(j)];
    slot_of(release_of(r, j), deadline_of(r, j), run_of(r, j), x).max(best)
}

// The latest of the set m, from those of the smaller sets.
fn latest_of(r: &Flat, table: &Table, m: usize) -> u16
    requires { Valid (recorder_of r.now) × (m < 65536) }
    ensures { result ≡ latest_by (recorder_of r.now) (λ i. get_or table.now i 0) m }
{
    if m == 0 {
        return horizon_of(r) + 1;
    }
    let mut best = 0;
    for j in 0..job_count(r) {
        best = offered(r, table, m, j, best);
    }
    best
}

// Fills the table, whatever it held.
pub fn lay_latest(r: &Flat, table: &mut Table)
    requires { Valid (recorder_of r.now) × (length table.old ≡ 65536) }
    ensures { Laid (recorder_of r.now) table.new }
{
    let all = all_jobs(r);
    for m in 0..=all {
        let x = latest_of(r, table, m);
        table[m] = x;
    }
}
