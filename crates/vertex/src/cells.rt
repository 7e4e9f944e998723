// A vertex as lent numbers (specs/inside/Shown): what of it decides how much is still to pay, and both sums over its unplaced jobs. The root, and a job placed.
ghost use Rattle.std.specs.Prelude.{◌≡◌, cond, ℕ, ◌+◌, ◌-◌, ◌<◌, ◌≤◌, length};
ghost use Rattle.base.specs.Sums.{sum};
ghost use Rattle.schedule.specs.Quantities.{Valid, jobs, run};
ghost use Rattle.schedule.specs.Visiting.{root, ticks};
ghost use Rattle.flat.specs.inside.Flat.{recorder_of};
ghost use Rattle.latest.specs.inside.Sparing.{set_of};
ghost use Rattle.vertex.specs.inside.Shown.{charged, ahead_at, load_at, Placed, Shows};

use crate::gaps::is_unused;
use flat::{Flat, device_count, is_round, is_used, job_count, run_of};

// Of device k at k the end of its last use, 0 where it has none yet; and in other places, from here on:
pub type Cells = [u32; 25];

// in a round the start of its first use,
const FIRST: usize = 8;

// and the ticks for which unplaced jobs will use it.
const AHEAD: usize = 16;

// The running times of the unplaced jobs.
pub const LOAD: usize = 24;

// The start of a device's first use, where the use at s is another or the first.
fn first_of(unused: bool, first: u32, s: u32) -> u32
    ensures { result ≡ cond unused s first }
{
    if unused { s } else { first }
}

// A job that starts at s and runs for c ticks, charged to device k.
fn charge(w: &mut Cells, round: bool, k: usize, s: u32, c: u32)
    requires { (k < 8) × ((length w.old ≡ 25) × ((s + c < 65536) × (c ≤ ahead_at w.old k))) }
    ensures { w.new ≡ charged round k s c w.old }
{
    let ahead = w[AHEAD + k];
    let first = first_of(is_unused(round, w[k]), w[FIRST + k], s);
    w[k] = s + c;
    w[FIRST + k] = first;
    w[AHEAD + k] = ahead - c;
}

// Places job j at s.
pub fn place(r: &Flat, w: &mut Cells, j: usize, s: u32)
    requires { Valid (recorder_of r.now) × ((length w.old ≡ 25) × ((j < 16) × ((s + run (recorder_of r.now) j < 65536) × ((run (recorder_of r.now) j ≤ load_at w.old) × ((k : ℕ) → k < (recorder_of r.now).devices.count → ticks (recorder_of r.now) k j ≤ ahead_at w.old k))))) }
    ensures { Placed (recorder_of r.now) w.old w.new j s }
{
    let c = u32::from(run_of(r, j));
    let round = is_round(r);
    let m = device_count(r);
    for k in 0..m {
        if is_used(r, k, j) {
            charge(w, round, k, s, c);
        }
    }
    w[LOAD] -= c;
}

// The ticks for which a job of running time c uses a device.
fn ticks_of(used: bool, c: u16) -> u32
    ensures { (result ≡ cond used c 0) × (result < 65536) }
{
    if used { u32::from(c) } else { 0 }
}

// The ticks for which all jobs use device k.
fn all_ticks_of(r: &Flat, k: usize) -> u32
    requires { (jobs (recorder_of r.now) ≤ 16) × (k < 8) }
    ensures { result ≡ sum (jobs (recorder_of r.now)) (ticks (recorder_of r.now) k) }
{
    let n = job_count(r);
    let mut sum: u32 = 0;
    for j in 0..n {
        sum += ticks_of(is_used(r, k, j), run_of(r, j));
    }
    sum
}

// The running times of all jobs.
fn load_of(r: &Flat) -> u32
    requires { jobs (recorder_of r.now) ≤ 16 }
    ensures { result ≡ sum (jobs (recorder_of r.now)) (run (recorder_of r.now)) }
{
    let n = job_count(r);
    let mut load: u32 = 0;
    for j in 0..n {
        load += u32::from(run_of(r, j));
    }
    load
}

// No job placed yet.
pub fn root_of(r: &Flat) -> Cells
    requires { Valid (recorder_of r.now) }
    ensures { Shows (recorder_of r.now) result (set_of (root (recorder_of r.now)).unplaced) (jobs (recorder_of r.now)) (root (recorder_of r.now)) }
{
    let m = device_count(r);
    let mut v = [0u32; 25];
    v[LOAD] = load_of(r);
    for k in 0..m {
        v[AHEAD + k] = all_ticks_of(r, k);
    }
    v
}
