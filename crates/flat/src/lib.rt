// The recorder laid flat, twenty rows of sixteen numbers (specs/inside/Flat says which). A struct that goes by value is copied at every call; this is lent, so that
// nothing of the recorder is copied at a vertex.
#![tactic(auto)]

ghost use Rattle.std.specs.Prelude.{◌≡◌, ◌<◌};
ghost use Rattle.device.specs.Row.{Sound, deep};
ghost use Rattle.schedule.specs.Quantities.{Valid, device, jobs, release, deadline, run, uses};
ghost use Rattle.flat.specs.inside.Flat.{recorder_of, numbered, job_number, device_number, own_number, number_of};

use device::{Device, Sleeps};
use schedule::{Job, Recorder};

pub type Flat = [u16; 320];

#[tactic(auto, unfolding(crate::specs::inside::Flat::recorder_of))]
pub fn horizon_of(r: &Flat) -> u16
    ensures { result ≡ (recorder_of r.now).horizon }
{
    r[304]
}

// The counts are read through a reference of their own, of which it is known that the number fits its type.
#[tactic(auto, unfolding(crate::specs::inside::Flat::recorder_of))]
pub fn job_count(r: &Flat) -> usize
    ensures { result ≡ jobs (recorder_of r.now) }
{
    let count = &r[305];
    *count as usize
}

#[tactic(auto, unfolding(crate::specs::inside::Flat::recorder_of))]
pub fn device_count(r: &Flat) -> usize
    ensures { result ≡ (recorder_of r.now).devices.count }
{
    let count = &r[306];
    *count as usize
}

#[tactic(auto, unfolding(crate::specs::inside::Flat::recorder_of))]
pub fn is_round(r: &Flat) -> bool
    ensures { result ≡ (recorder_of r.now).round }
{
    r[307] == 1
}

pub fn release_of(r: &Flat, j: usize) -> u16
    requires { j < 16 }
    ensures { result ≡ release (recorder_of r.now) j }
{
    r[j]
}

pub fn deadline_of(r: &Flat, j: usize) -> u16
    requires { j < 16 }
    ensures { result ≡ deadline (recorder_of r.now) j }
{
    r[16 + j]
}

pub fn run_of(r: &Flat, j: usize) -> u16
    requires { j < 16 }
    ensures { result ≡ run (recorder_of r.now) j }
{
    r[32 + j]
}

// Whether job j uses device k.
pub fn is_used(r: &Flat, k: usize, j: usize) -> bool
    requires { (k < 8) × (j < 16) }
    ensures { result ≡ uses (recorder_of r.now) k j }
{
    r[48 + 16 * k + j] == 1
}

pub fn device_of(r: &Flat, k: usize) -> Device
    requires { k < 8 }
    ensures { result ≡ device (recorder_of r.now) k }
{
    let at = 176 + 16 * k;
    Device {
        shut: (r[at] % 256) as u8,
        wake: (r[at + 1] % 256) as u8,
        pw: r[at + 2],
        pd: r[at + 3],
        pu: r[at + 4],
        levels: (r[at + 5] % 256) as u8,
        powers: [r[at + 6], r[at + 7], r[at + 8], r[at + 9]],
    }
}

// The power of device k at work.
pub fn work_power(r: &Flat, k: usize) -> u16
    requires { k < 8 }
    ensures { result ≡ (device (recorder_of r.now) k).pw }
{
    r[178 + 16 * k]
}

// Its power in the deepest sleep.
pub fn deep_power(r: &Flat, k: usize) -> u16
    requires { (k < 8) × Sound (device (recorder_of r.now) k) }
    ensures { result ≡ deep (device (recorder_of r.now) k) }
{
    let levels = (r[181 + 16 * k] % 256) as usize;
    r[181 + 16 * k + levels]
}

// What a job has in its column: its times, and 1 for each device that it uses.
#[tactic(auto, unfolding(crate::specs::inside::Flat::job_number))]
fn job_number(job: Job, row: usize) -> u16
    requires { row < 11 }
    ensures { result ≡ job_number job row }
{
    match row {
        0 => job.release,
        1 => job.deadline,
        2 => job.run,
        _ => u16::from(job.uses[row - 3]),
    }
}

// What a device has in its row.
#[tactic(auto, unfolding(crate::specs::inside::Flat::device_number))]
fn device_number(device: Device, column: usize) -> u16
    requires { column < 10 }
    ensures { result ≡ device_number device column }
{
    match column {
        0 => u16::from(device.shut),
        1 => u16::from(device.wake),
        2 => device.pw,
        3 => device.pd,
        4 => device.pu,
        5 => u16::from(device.levels),
        _ => device.powers[column - 6],
    }
}

// Whether sleeps are numbered.
#[tactic(auto, unfolding(crate::specs::inside::Flat::numbered))]
fn is_numbered(sleeps: Sleeps) -> bool
    ensures { result ≡ numbered sleeps }
{
    matches!(sleeps, Sleeps::Numbered)
}

// What the recorder has in the last row: the horizon, the counts, 1 for a round, and 1 where sleeps are numbered.
#[tactic(auto, unfolding(crate::specs::inside::Flat::own_number))]
fn own_number(r: &Recorder, column: usize) -> u16
    requires { Valid r.now }
    ensures { result ≡ own_number r.now column }
{
    match column {
        0 => r.horizon,
        1 => r.jobs.count as u16,
        2 => r.devices.count as u16,
        3 => u16::from(r.round),
        _ => u16::from(is_numbered(r.sleeps)),
    }
}

// The number that stands in a row and a column of the recorder laid flat.
#[tactic(auto, unfolding(crate::specs::inside::Flat::number_of))]
fn number_of(r: &Recorder, row: usize, column: usize) -> u16
    requires { Valid r.now × ((row < 20) × (column < 16)) }
    ensures { result ≡ number_of r.now row column }
{
    match row {
        0..11 => job_number(r.jobs.list[column], row),
        11..19 if column < 10 => device_number(r.devices.list[row - 11], column),
        11..19 => 0,
        _ => own_number(r, column),
    }
}

// Lays a recorder flat in the room that is lent. (A caller that takes it as a result has room for it twice.)
pub fn lay_flat(r: Recorder, flat: &mut Flat)
    requires { Valid r }
    ensures { recorder_of flat.new ≡ r }
{
    for (i, number) in flat.iter_mut().enumerate() {
        *number = number_of(&r, i / 16, i % 16);
    }
}

// The recorder laid flat.
pub fn flat_of(r: Recorder) -> Flat
    requires { Valid r }
    ensures { recorder_of result ≡ r }
{
    let mut flat = [0u16; 320];
    lay_flat(r, &mut flat);
    flat
}
