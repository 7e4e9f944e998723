// The extras that a job adds before it starts, and those that the end adds; what no later start adds less than; and the floor with nothing added.
ghost use Rattle.std.specs.Prelude.{◌≡◌, cond, ℕ, ◌+◌, ◌-◌, ◌*◌, ◌<◌, ◌≤◌, length};
ghost use Rattle.base.specs.Sums.{sum};
ghost use Rattle.schedule.specs.Quantities.{device, run, uses};
ghost use Rattle.flat.specs.inside.Flat.{recorder_of};
ghost use Rattle.keys.specs.inside.Keys.{extra};
ghost use Rattle.extras.specs.inside.Tabled.{Tabled};
ghost use Rattle.vertex.specs.inside.Gaps.{gap_at, gaps_by};
ghost use Rattle.vertex.specs.inside.Shown.{unused, ahead_at, leads_by, closes_by, ends_by, idle_floor, Ordered};

use crate::cells::Cells;
use extras::{extra_of, least_from, used_at, used_count};
use flat::{Flat, deep_power, device_count, horizon_of, is_round, is_used, run_of, work_power};

// Whether a device whose last use ended at `end` has none yet in a round. (A use ends after tick 0.)
pub fn is_unused(round: bool, end: u32) -> bool
    ensures { result ≡ unused round end }
{
    round && end == 0
}

// x where the test holds, and else y.
fn chosen(test: bool, x: u32, y: u32) -> u32
    ensures { result ≡ cond test x y }
{
    if test { x } else { y }
}

// The extra of a gap of g ticks; or, if later starts count too, what neither it nor a longer one has less than.
fn gap_at(extras: &[u32], later: bool, k: usize, g: u32) -> u32
    requires { (k < 8) × ((g ≤ 4096) × (208 + 8 * g ≤ length extras.now)) }
    ensures { result ≡ gap_at extras.now later k g }
{
    if later {
        least_from(extras, k, g)
    } else {
        extra_of(extras, k, g)
    }
}

// What device k pays for the gap before a job that uses it and starts at s; or at least, where it starts at s or later. The table is read before the test, so that
// no jump hangs on it.
fn gap_with(extras: &[u32], later: bool, round: bool, k: usize, end: u32, s: u32) -> u32
    requires { (k < 8) × ((end ≤ s) × ((s ≤ 4096) × (208 + 8 * s ≤ length extras.now))) }
    ensures { result ≡ cond (unused round end) 0 (gap_at extras.now later k (s - end)) }
{
    let gap = gap_at(extras, later, k, s - end);
    if is_unused(round, end) { 0 } else { gap }
}

// What all devices pay for the gaps before job j. Those that it does not use pay nothing.
fn gaps_of(r: &Flat, extras: &[u32], v: &Cells, j: usize, s: u32, later: bool) -> u32
    requires { Tabled (recorder_of r.now) extras.now × ((j < 16) × Ordered (recorder_of r.now) v.now s) }
    ensures { (result ≡ gaps_by (recorder_of r.now) extras.now v.now later j s) × (result ≤ 2147450880) }
{
    let round = is_round(r);
    let n = used_count(extras, j);
    let mut sum: u32 = 0;
    for i in 0..n {
        let k = used_at(extras, j, i);
        sum += gap_with(extras, later, round, k, v[k], s);
    }
    sum
}

// What they pay where it starts at s.
pub fn lead_of(r: &Flat, extras: &[u32], v: &Cells, j: usize, s: u32) -> u32
    requires { Tabled (recorder_of r.now) extras.now × ((j < 16) × Ordered (recorder_of r.now) v.now s) }
    ensures { (result ≡ leads_by (recorder_of r.now) v.now j s) × (result ≤ 2147450880) }
{
    gaps_of(r, extras, v, j, s, false)
}

// What they pay at least where it starts at s or later.
pub fn least_of(r: &Flat, extras: &[u32], v: &Cells, j: usize, s: u32) -> u32
    requires { Tabled (recorder_of r.now) extras.now × ((j < 16) × Ordered (recorder_of r.now) v.now s) }
    ensures { ((t : ℕ) → s ≤ t → t ≤ (recorder_of r.now).horizon → result ≤ leads_by (recorder_of r.now) v.now j t) × (result ≤ 2147450880) }
{
    gaps_of(r, extras, v, j, s, true)
}

// What device k pays for the gap that closes its round.
fn close_with(r: &Flat, extras: &[u32], round: bool, k: usize, h: u32, end: u32, first: u32) -> u32
    requires { Tabled (recorder_of r.now) extras.now × ((k < (recorder_of r.now).devices.count) × ((first ≤ end) × ((end ≤ h) × (h ≤ (recorder_of r.now).horizon)))) }
    ensures { (result ≡ cond (unused round end) 0 (extra (device (recorder_of r.now) k) (first + (h - end)))) × (result ≤ 268431360) }
{
    let close = extra_of(extras, k, first + (h - end));
    if is_unused(round, end) { 0 } else { close }
}

// What all devices pay for them.
pub fn close_of(r: &Flat, extras: &[u32], v: &Cells) -> u32
    requires { Tabled (recorder_of r.now) extras.now × Ordered (recorder_of r.now) v.now (recorder_of r.now).horizon }
    ensures { (result ≡ closes_by (recorder_of r.now) v.now) × (result ≤ 2147450880) }
{
    let round = is_round(r);
    let h = u32::from(horizon_of(r));
    let m = device_count(r);
    let mut sum: u32 = 0;
    for k in 0..m {
        sum += close_with(r, extras, round, k, h, v[k], v[8 + k]);
    }
    sum
}

// The same where job j, which runs for c ticks, is the last and starts at s: its devices end with it.
fn end_with(
    r: &Flat,
    extras: &[u32],
    round: bool,
    k: usize,
    h: u32,
    j: usize,
    c: u32,
    end: u32,
    first: u32,
    s: u32,
) -> u32
    requires { Tabled (recorder_of r.now) extras.now × ((k < (recorder_of r.now).devices.count) × ((j < 16) × ((first ≤ end) × ((end ≤ s) × ((s + c ≤ h) × (h ≤ (recorder_of r.now).horizon)))))) }
    ensures { (result ≡ cond (unused round (cond (uses (recorder_of r.now) k j) (s + c) end)) 0 (extra (device (recorder_of r.now) k) (cond (uses (recorder_of r.now) k j) (cond (unused round end) s first) first + (h - cond (uses (recorder_of r.now) k j) (s + c) end)))) × (result ≤ 268431360) }
{
    let used = is_used(r, k, j);
    let begun = chosen(is_unused(round, end), s, first);
    let last = chosen(used, s + c, end);
    close_with(r, extras, round, k, h, last, chosen(used, begun, first))
}

// What all devices pay for them. The child that places job j at s is complete, and is not made.
pub fn end_of(r: &Flat, extras: &[u32], v: &Cells, j: usize, s: u32) -> u32
    requires { Tabled (recorder_of r.now) extras.now × ((j < 16) × (Ordered (recorder_of r.now) v.now s × (s + run (recorder_of r.now) j ≤ (recorder_of r.now).horizon))) }
    ensures { (result ≡ ends_by (recorder_of r.now) v.now j s) × (result ≤ 2147450880) }
{
    let round = is_round(r);
    let h = u32::from(horizon_of(r));
    let c = u32::from(run_of(r, j));
    let m = device_count(r);
    let mut sum: u32 = 0;
    for k in 0..m {
        sum += end_with(r, extras, round, k, h, j, c, v[k], v[8 + k], s);
    }
    sum
}

// The floor of a device without a use so far, by its powers at work and in its deepest sleep, with `ahead` ticks to come.
fn floor_with(work: u16, deep: u16, h: u32, ahead: u32) -> u32
    requires { (ahead ≤ h) × (h ≤ 4096) }
    ensures { (result ≡ work * ahead + deep * (h - ahead)) × (result ≤ 268431360) }
{
    u32::from(work) * ahead + u32::from(deep) * (h - ahead)
}

// The floor of the root: at work for the ticks to come of each device, and in its deepest sleep for all others.
pub fn root_floor(r: &Flat, extras: &[u32], v: &Cells) -> u32
    requires { Tabled (recorder_of r.now) extras.now × ((k : ℕ) → k < (recorder_of r.now).devices.count → ahead_at v.now k ≤ (recorder_of r.now).horizon) }
    ensures { (result ≡ sum (recorder_of r.now).devices.count (idle_floor (recorder_of r.now) v.now)) × (result ≤ 2147450880) }
{
    let h = u32::from(horizon_of(r));
    let m = device_count(r);
    let mut sum: u32 = 0;
    for k in 0..m {
        sum += floor_with(work_power(r, k), deep_power(r, k), h, v[16 + k]);
    }
    sum
}
