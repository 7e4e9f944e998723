// The recorder of a file without a fault: its devices and jobs in arrays, since the search reads them at every vertex.
ghost use Rattle.std.specs.Prelude.{◌≡◌, [], ℕ, ◌≤◌, length};
ghost use Rattle.base.specs.Lists.{up_to};
ghost use Rattle.tables.specs.Records.{device_at};
ghost use Rattle.tables.specs.Layout.{device_place};
ghost use Rattle.request.specs.Format.{device_of, devices_held, sleeps_in, fault_as, recorder_as};

use super::{horizon, jobs, records};
use device::{Device, Sleeps};
use schedule::{Devices, Recorder};
use tables::Kind;

fn no_devices() -> Devices
    ensures { result ≡ devices_held [] }
{
    let none = Device {
        shut: 0,
        wake: 0,
        pw: 0,
        pd: 0,
        pu: 0,
        levels: 0,
        powers: [0; 4],
    };
    Devices {
        count: 0,
        list: [none; 8],
    }
}

// The first n devices of a file of a kind: each record stands after the one before it.
fn devices_of(s: &[u8], kind: Kind, n: usize) -> Devices
    requires { (n ≤ 8) × (device_place kind s.now n ≤ length s.now) }
    ensures { result ≡ devices_held (up_to (λ k. device_of (device_at kind s.now (device_place kind s.now k))) n) }
{
    let mut devices = no_devices();
    let mut at = 3;
    for k in 0..n {
        devices.list[k] = records::device_of(tables::device_at(s, kind, at));
        at += tables::device_size(s, kind, at);
    }
    devices.count = n;
    devices
}

// How rows write a sleep: numbered in files of the third kind.
fn sleeps_in(kind: Kind) -> Sleeps
    ensures { result ≡ sleeps_in kind }
{
    match kind {
        Kind::First | Kind::Second => Sleeps::Plain,
        Kind::Third => Sleeps::Numbered,
    }
}

// The recorder of a file without a fault.
pub(crate) fn recorder_in(s: &[u8], kind: Kind) -> Recorder
    requires { 0 ≡ fault_as kind s.now }
    ensures { result ≡ recorder_as kind s.now }
{
    let n = s[2] as usize;
    let place = tables::device_place(s, kind, n);
    let tasks = s[place] as usize;
    let h = horizon::horizon_of(s, tasks, place + 1);
    let devices = devices_of(s, kind, n);
    let jobs = jobs::jobs_of(s, tasks, place + 1, place + 1 + tasks * 5, h);
    Recorder {
        horizon: h as u16,
        round: 0 < tasks,
        sleeps: sleeps_in(kind),
        devices,
        jobs,
    }
}
