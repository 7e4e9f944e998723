// The table filled, device by device: each gap by what it costs, and with them the device's cap, rise, fall, foot and low; then the devices of each job.
ghost use Rattle.std.specs.Prelude.{◌≡◌, true, suc, ◌+◌, ◌*◌, ◌<◌, ◌≤◌, length};
ghost use Rattle.device.specs.Row.{Sound, deep};
ghost use Rattle.keys.specs.inside.Keys.{extra};
ghost use Rattle.schedule.specs.Quantities.{Valid, device};
ghost use Rattle.flat.specs.inside.Flat.{recorder_of};
ghost use Rattle.extras.specs.inside.Shapes.{Stays, shape_of};
ghost use Rattle.extras.specs.inside.Tabled.{Room, Tabled};
ghost use Rattle.extras.specs.inside.Parts.{LaidGaps, LaidDevice};

use crate::jobs::lay_jobs;
use crate::shape::{Shape, shape_with};
use crate::{EXTRAS, FALLS, FEET, LOWS, RISES};
use device::{Device, gap_trip};
use flat::{Flat, deep_power, device_count, device_of, horizon_of};

// A gap's extra, and whether the gap is slept through at the deepest level: then every longer one is, and has the same extra. No Option: a gap has an extra either way.
#[derive(Clone, Copy)]
struct Gap {
    extra: u32,
    deepest: bool,
}

// The gap of g ticks, where `last` is the one before it.
fn next_gap(d: Device, sleep: u32, g: u16, last: Gap) -> Gap
    requires { Sound d × ((sleep ≡ deep d) × ((g ≤ 4096) × (last.deepest ≡ true → Stays d g last.extra))) }
    ensures { (result.extra ≡ extra d g) × (result.deepest ≡ true → Stays d (g + 1) result.extra) }
{
    if last.deepest {
        return last;
    }
    let trip = gap_trip(d, g);
    Gap {
        extra: trip.cost - sleep * u32::from(g),
        deepest: trip.level == d.levels as usize,
    }
}

// The extras of device k, which is d and has the power `sleep` in its deepest sleep, up to h ticks.
fn lay_gaps(d: Device, sleep: u32, k: usize, h: u16, extras: &mut [u32]) -> Shape
    requires { Sound d × ((sleep ≡ deep d) × ((k < 8) × ((h ≤ 4096) × (208 + 8 * h ≤ length extras.old)))) }
    ensures { LaidGaps d k h extras.old extras.new × (result ≡ shape_of d (suc h)) }
{
    let mut shape = Shape::NONE;
    let mut last = Gap {
        extra: 0,
        deepest: false,
    };
    for g in 0..=h {
        let gap = next_gap(d, sleep, g, last);
        extras[EXTRAS + 8 * g as usize + k] = gap.extra;
        shape = shape_with(shape, u32::from(g), last.extra, gap.extra);
        last = gap;
    }
    shape
}

// All of device k.
fn lay_device(r: &Flat, k: usize, extras: &mut [u32])
    requires { Valid (recorder_of r.now) × ((k < (recorder_of r.now).devices.count) × (208 + 8 * (recorder_of r.now).horizon ≤ length extras.old)) }
    ensures { LaidDevice (device (recorder_of r.now) k) k (recorder_of r.now).horizon extras.old extras.new }
{
    let shape = lay_gaps(
        device_of(r, k),
        u32::from(deep_power(r, k)),
        k,
        horizon_of(r),
        extras,
    );
    extras[k] = shape.cap;
    extras[RISES + k] = shape.rise;
    extras[FALLS + k] = shape.fall;
    extras[FEET + k] = shape.foot;
    extras[LOWS + k] = shape.low;
}

pub fn lay_extras(r: &Flat, extras: &mut [u32])
    requires { Valid (recorder_of r.now) × Room (recorder_of r.now) extras.old }
    ensures { Tabled (recorder_of r.now) extras.new }
{
    for k in 0..device_count(r) {
        lay_device(r, k, extras);
    }
    lay_jobs(r, extras);
}
