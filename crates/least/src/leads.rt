// By how much the rest may fall from one start of a job to the next; how long a vertex waits.
ghost use Rattle.std.specs.Prelude.{◌≡◌, cond, ◌+◌, ◌<◌, ◌≤◌, IfSome};
ghost use Rattle.schedule.specs.Quantities.{uses};
ghost use Rattle.flat.specs.inside.Flat.{recorder_of};
ghost use Rattle.vertex.specs.inside.Shown.{unused};
ghost use Rattle.extras.specs.inside.Tabled.{Tabled, rise_at, fall_at};
ghost use Rattle.least.specs.inside.Shown.{falls_by, Ordered};

use extras::{cap_of, fall_of, rise_of};
use flat::{Flat, device_count, horizon_of, is_round, is_used};
use vertex::cells::Cells;
use vertex::gaps::is_unused;

// By how much device k can lower the rest, where job j starts one tick later.
fn fall_with(r: &Flat, extras: &[u32], round: bool, k: usize, j: usize, end: u32) -> u32
    requires { Tabled (recorder_of r.now) extras.now × ((k < (recorder_of r.now).devices.count) × (j < 16)) }
    ensures { (result ≡ cond (uses (recorder_of r.now) k j) (cond (unused round end) (rise_at extras.now k + fall_at extras.now k) (rise_at extras.now k)) 0) × (result ≤ 536862720) }
{
    if !is_used(r, k, j) {
        0
    } else if is_unused(round, end) {
        rise_of(extras, k) + fall_of(extras, k)
    } else {
        rise_of(extras, k)
    }
}

// By how much all devices can.
pub fn falls_of(r: &Flat, extras: &[u32], v: &Cells, j: usize) -> u32
    requires { Tabled (recorder_of r.now) extras.now × (j < 16) }
    ensures { result ≡ falls_by (recorder_of r.now) (rise_at extras.now) (fall_at extras.now) v.now j }
{
    let round = is_round(r);
    let mut sum = 0;
    for k in 0..device_count(r) {
        sum += fall_with(r, extras, round, k, j, v[k]);
    }
    sum
}

// When a device, last used up to `end`, has been idle as long as its cap, if it is there and that is still to come.
fn capped_at(cap: u32, unused: bool, end: u32, ahead: u32, time: u32) -> Option<u32>
    requires { (cap ≤ 4096) × (end ≤ 4096) }
    ensures { IfSome result (λ t. time < t) }
{
    if ahead == 0 || unused || end + cap <= time {
        None
    } else {
        Some(end + cap)
    }
}

// Up to which time a vertex looks at starts itself; from there on it is the same vertex at that time. It is when one more device has reached its cap; with all there,
// the next step of 32 ticks; or the horizon.
pub fn wait_of(r: &Flat, extras: &[u32], v: &Cells, time: u32) -> u32
    requires { Tabled (recorder_of r.now) extras.now × Ordered (recorder_of r.now) v.now time }
    ensures { (result ≤ (recorder_of r.now).horizon) × (result < (recorder_of r.now).horizon → time < result) }
{
    let round = is_round(r);
    let mut until: Option<u32> = None;
    for k in 0..device_count(r) {
        let unused = is_unused(round, v[k]);
        if let Some(t) = capped_at(cap_of(extras, k), unused, v[k], v[16 + k], time) {
            until = Some(until.map_or(t, |sooner| sooner.min(t)));
        }
    }
    let until = until.unwrap_or((time / 32 + 1) * 32);
    until.min(u32::from(horizon_of(r)))
}
