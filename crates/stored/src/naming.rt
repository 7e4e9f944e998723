// The key of a vertex: all that what is still to pay depends on (value/specs/inside/Stored).
ghost use Rattle.std.specs.Prelude.{◌≡◌, cond, ◌+◌, ◌-◌, ◌*◌, ◌<◌, ◌≤◌, min, ltb};
ghost use Rattle.flat.specs.inside.Flat.{recorder_of};
ghost use Rattle.extras.specs.inside.Tabled.{Tabled, cap_at};
ghost use Rattle.vertex.specs.inside.Shown.{Ordered};
ghost use Rattle.stored.specs.inside.Naming.{idle_by, first_by, four, key_by};

use crate::Key;
use extras::cap_of;
use flat::{Flat, device_count, horizon_of, is_round};
use vertex::cells::Cells;
use vertex::gaps::is_unused;

// How long a device has been idle, up to its cap; where it is needed no more, its closing gap.
fn idle_with(cap: u32, unused: bool, h: u32, end: u32, first: u32, ahead: u32, time: u32) -> u32
    requires { (end ≤ time) × ((time ≤ h) × ((h ≤ 4096) × (first ≤ end))) }
    ensures { result ≡ cond (ltb 0 ahead) (cond unused 0 (min (time - end) cap)) (min (first + (h - end)) cap) }
{
    if 0 < ahead {
        if unused { 0 } else { (time - end).min(cap) }
    } else {
        (first + (h - end)).min(cap)
    }
}

fn idle_of(r: &Flat, extras: &[u32], v: &Cells, k: usize, time: u32) -> u64
    requires { Tabled (recorder_of r.now) extras.now × (Ordered (recorder_of r.now) v.now time × (k < 8)) }
    ensures { (result ≡ idle_by (recorder_of r.now) (cap_at extras.now) v.now time k) × (result < 65536) }
{
    if k < device_count(r) {
        let h = u32::from(horizon_of(r));
        let unused = is_unused(is_round(r), v[k]);
        u64::from(idle_with(
            cap_of(extras, k),
            unused,
            h,
            v[k],
            v[8 + k],
            v[16 + k],
            time,
        ))
    } else {
        0
    }
}

// When it was first used, up to its cap, as long as it is needed.
fn first_of(r: &Flat, extras: &[u32], v: &Cells, k: usize) -> u64
    requires { Tabled (recorder_of r.now) extras.now × (k < 8) }
    ensures { (result ≡ first_by (recorder_of r.now) (cap_at extras.now) v.now k) × (result < 65536) }
{
    if k < device_count(r) && 0 < v[16 + k] {
        u64::from(v[8 + k].min(cap_of(extras, k)))
    } else {
        0
    }
}

// Four numbers of sixteen bits in one word.
fn packed(a: u64, b: u64, c: u64, d: u64) -> u64
    requires { (a < 65536) × ((b < 65536) × ((c < 65536) × (d < 65536))) }
    ensures { result ≡ ((a * 65536 + b) * 65536 + c) * 65536 + d }
{
    ((a * 65536 + b) * 65536 + c) * 65536 + d
}

fn four_idle(r: &Flat, extras: &[u32], v: &Cells, k: usize, time: u32) -> u64
    requires { Tabled (recorder_of r.now) extras.now × (Ordered (recorder_of r.now) v.now time × (k ≤ 4)) }
    ensures { result ≡ four (idle_by (recorder_of r.now) (cap_at extras.now) v.now time) k }
{
    let a = idle_of(r, extras, v, k, time);
    let b = idle_of(r, extras, v, k + 1, time);
    let c = idle_of(r, extras, v, k + 2, time);
    let d = idle_of(r, extras, v, k + 3, time);
    packed(a, b, c, d)
}

fn four_first(r: &Flat, extras: &[u32], v: &Cells, k: usize) -> u64
    requires { Tabled (recorder_of r.now) extras.now × (k ≤ 4) }
    ensures { result ≡ four (first_by (recorder_of r.now) (cap_at extras.now) v.now) k }
{
    let a = first_of(r, extras, v, k);
    let b = first_of(r, extras, v, k + 1);
    let c = first_of(r, extras, v, k + 2);
    let d = first_of(r, extras, v, k + 3);
    packed(a, b, c, d)
}

pub fn key_of(r: &Flat, extras: &[u32], v: &Cells, set: usize, time: u32) -> Key
    requires { Tabled (recorder_of r.now) extras.now × (Ordered (recorder_of r.now) v.now time × (set < 65536)) }
    ensures { result ≡ key_by (recorder_of r.now) (cap_at extras.now) v.now set time }
{
    let head = set as u64 + 65536 * time as u64;
    let idle = four_idle(r, extras, v, 0, time);
    let idle4 = four_idle(r, extras, v, 4, time);
    let first = four_first(r, extras, v, 0);
    let first4 = four_first(r, extras, v, 4);
    Key {
        head,
        idle,
        idle4,
        first,
        first4,
    }
}
