// The energy of a device's least row, from its gaps and its uses.
ghost use Rattle.std.specs.Prelude.{◌≡◌, false, ◌+◌, ◌-◌, ◌*◌, ◌≤◌, ◌<◌};
ghost use Rattle.device.specs.Row.{Sound, deep, gap_cost, energy_of, pattern};
ghost use Rattle.device.specs.inside.Trips.{Chosen};
ghost use Rattle.device.specs.inside.Uses.{begin, used_in, after_from, front, idle, Spaced};

use crate::{Device, Uses};

// What a device does in a gap: the level to which it goes, 0 for work, and what the gap costs.
#[derive(Clone, Copy)]
pub struct Trip {
    pub level: usize,
    pub cost: u32,
}

// Widths grow by `as` here, and not by `u32::from`: the sums below are proved over the numbers themselves, and not over what a call gives.

// The better of the best trip to the first n levels and of that to the next one, which counts where both ways have room and it costs less.
fn better_trip(d: Device, g: u16, n: usize, best: Trip) -> Trip
    requires { Sound d × ((n < d.levels) × Chosen d n g best) }
    ensures { Chosen d (n + 1) g result }
{
    let gap = g as u32;
    let level = n + 1;
    let down = d.shut as u32 * level as u32;
    let up = d.wake as u32 * level as u32;
    if gap < down + up {
        return best;
    }
    let stay = gap - (down + up);
    let cost = d.pd as u32 * down + d.pu as u32 * up + d.powers[n] as u32 * stay;
    if cost < best.cost {
        Trip { level, cost }
    } else {
        best
    }
}

// The trip that a device makes in a gap of g ticks (rule 38).
pub fn gap_trip(d: Device, g: u16) -> Trip
    requires { Sound d }
    ensures { Chosen d d.levels g result }
{
    let mut best = Trip {
        level: 0,
        cost: d.pw as u32 * g as u32,
    };
    for n in 0..d.levels as usize {
        best = better_trip(d, g, n, best);
    }
    best
}

// The energy of a gap of g ticks.
fn gap_energy(d: Device, g: u16) -> u32
    requires { Sound d }
    ensures { (result ≡ gap_cost d g) × (result ≤ 65535 * g) }
{
    gap_trip(d, g).cost
}

// The power of a device in its deepest sleep.
fn deep_power(d: Device) -> u16
    requires { Sound d }
    ensures { result ≡ deep d }
{
    d.powers[d.levels as usize - 1]
}

// Whether the device is never used in a round (rule 88).
pub fn is_idle(round: bool, u: Uses) -> bool
    ensures { result ≡ idle round u }
{
    round && u.count == 0
}

// The ticks before the first use that lie in the gap after the last: in a round all of them (rule 87), in a list none.
pub fn front_of(round: bool, u: Uses) -> u16
    ensures { result ≡ front round u }
{
    if round { u.begins[0] } else { 0 }
}

// The energy from the tick `front` on, up to which there is no use: the uses, the gaps between them, and one gap for what lies after them and before `front`.
fn energy_from(d: Device, h: u16, u: Uses, front: u16) -> u32
    requires { Sound d × (Spaced u h × ((front ≤ begin u 0) × (after_from front u u.count ≤ h))) }
    ensures { (result ≡ energy_of false d (pattern (used_in u) front (after_from front u u.count - front)) + gap_cost d ((h - after_from front u u.count) + front)) × (result ≤ 65535 * h) }
{
    let mut sum: u32 = 0;
    let mut at = front;
    for i in 0..u.count {
        let begin = u.begins[i];
        let end = u.ends[i];
        sum += gap_energy(d, begin - at);
        sum += d.pw as u32 * (end - begin) as u32;
        at = end;
    }
    sum + gap_energy(d, (h - at) + front)
}

// The least energy of a device over h ticks with these uses.
pub fn energy_of(round: bool, d: Device, h: u16, u: Uses) -> u32
    requires { Sound d × Spaced u h }
    ensures { (result ≡ energy_of round d (pattern (used_in u) 0 h)) × (result ≤ 65535 * h) }
{
    if is_idle(round, u) {
        return deep_power(d) as u32 * h as u32;
    }
    let front = front_of(round, u);
    energy_from(d, h, u, front)
}
