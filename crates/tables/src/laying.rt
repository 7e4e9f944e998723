// The bytes of tables, from the first to the last, in an array.
ghost use Rattle.std.specs.Prelude.{◌≡◌, [], ◌∷◌, ◌+◌, ◌≤◌, ◌<◌, length, get_or};
ghost use Rattle.base.specs.Bytes.{pair_bytes};
ghost use Rattle.tables.specs.Records.{first_bytes, second_bytes, power_bytes, powers_bytes, third_bytes, device_bytes, task_bytes, job_bytes, blank_device, blank_task, blank_job};
ghost use Rattle.tables.specs.Layout.{marker, count_in, record_in, joined, section_of, bytes_of};
ghost use Rattle.tables.specs.inside.Held.{limited, held, appended};

use crate::records::{Record, blank_device};
use crate::{DeviceRecord, File, JobRecord, Kind, TableName, Tables, TaskRecord};

#[tactic(auto, unfolding(crate::specs::inside::Held::held, base::specs::Lists::padded))]
pub fn empty() -> File
    ensures { result ≡ held [] }
{
    File {
        count: 0,
        bytes: [0; 297],
    }
}

#[tactic(auto, unfolding(crate::specs::inside::Held::appended))]
pub fn push(f: File, byte: u8) -> File
    requires { f.count < 297 }
    ensures { result ≡ appended f (byte ∷ []) }
{
    let n = f.count;
    let mut out = f;
    out.bytes[n] = byte;
    out.count = n + 1;
    out
}

#[tactic(auto, unfolding(crate::specs::inside::Held::appended))]
pub fn push_pair(f: File, number: u16) -> File
    requires { f.count + 2 ≤ 297 }
    ensures { result ≡ appended f (pair_bytes number) }
{
    let high = push(f, (number / 256) as u8);
    push(high, (number % 256) as u8)
}

#[tactic(auto, unfolding(crate::specs::inside::Held::appended))]
fn push_marker(f: File, kind: Kind) -> File
    requires { f.count + 2 ≤ 297 }
    ensures { result ≡ appended f (marker kind) }
{
    match kind {
        Kind::First => f,
        Kind::Second => push(push(f, 255), 2),
        Kind::Third => push(push(f, 255), 3),
    }
}

#[tactic(auto, unfolding(crate::specs::inside::Held::appended))]
fn push_first(f: File, d: DeviceRecord) -> File
    requires { f.count + 7 ≤ 297 }
    ensures { result ≡ appended f (first_bytes d) }
{
    let a = push(f, d.wake);
    let b = push_pair(a, d.pw);
    let c = push_pair(b, d.ps);
    push_pair(c, d.pwake)
}

#[tactic(auto, unfolding(crate::specs::inside::Held::appended))]
fn push_second(f: File, d: DeviceRecord) -> File
    requires { f.count + 10 ≤ 297 }
    ensures { result ≡ appended f (second_bytes d) }
{
    let a = push(f, d.wake);
    let b = push(a, d.shut);
    let c = push_pair(b, d.pw);
    let e = push_pair(c, d.ps);
    let g = push_pair(e, d.pwake);
    push_pair(g, d.pshut)
}

// The power of level i + 1, if n levels have it.
#[tactic(auto, unfolding(crate::specs::inside::Held::appended))]
fn push_power(f: File, n: u8, i: u8, power: u16) -> File
    requires { f.count + length (power_bytes n i power) ≤ 297 }
    ensures { result ≡ appended f (power_bytes n i power) }
{
    if i < n { push_pair(f, power) } else { f }
}

fn push_powers(f: File, d: DeviceRecord) -> File
    requires { f.count + length (powers_bytes d) ≤ 297 }
    ensures { result ≡ appended f (powers_bytes d) }
{
    let n = d.levels;
    let a = push_power(f, n, 0, d.ps);
    let b = push_power(a, n, 1, d.ps2);
    let c = push_power(b, n, 2, d.ps3);
    push_power(c, n, 3, d.ps4)
}

#[tactic(auto, unfolding(crate::specs::inside::Held::appended))]
fn push_third(f: File, d: DeviceRecord) -> File
    requires { f.count + length (third_bytes d) ≤ 297 }
    ensures { result ≡ appended f (third_bytes d) }
{
    let a = push(f, d.wake);
    let b = push_pair(a, d.pw);
    let c = push_pair(b, d.pwake);
    let e = push(c, d.levels);
    push_powers(e, d)
}

fn push_device(f: File, kind: Kind, d: DeviceRecord) -> File
    requires { f.count + length (device_bytes kind d) ≤ 297 }
    ensures { result ≡ appended f (device_bytes kind d) }
{
    match kind {
        Kind::First => push_first(f, d),
        Kind::Second => push_second(f, d),
        Kind::Third => push_third(f, d),
    }
}

#[tactic(auto, unfolding(crate::specs::inside::Held::appended))]
fn push_task(f: File, k: TaskRecord) -> File
    requires { f.count + 5 ≤ 297 }
    ensures { result ≡ appended f (task_bytes k) }
{
    let a = push_pair(f, k.period);
    let b = push_pair(a, k.run);
    push(b, k.set)
}

#[tactic(auto, unfolding(crate::specs::inside::Held::appended))]
fn push_job(f: File, j: JobRecord) -> File
    requires { f.count + 7 ≤ 297 }
    ensures { result ≡ appended f (job_bytes j) }
{
    let a = push_pair(f, j.release);
    let b = push_pair(a, j.deadline);
    let c = push_pair(b, j.run);
    push(c, j.set)
}

// The record of a number. One past the end of the list is blank.
fn record_of<T: Copy>(list: &[T], k: usize, blank: T) -> T
    ensures { result ≡ get_or list.now k blank }
{
    list.get(k).copied().unwrap_or(blank)
}

fn push_record(f: File, t: Tables, part: TableName, k: usize) -> File
    requires { f.count + length (record_in t part k) ≤ 297 }
    ensures { result ≡ appended f (record_in t part k) }
{
    match part {
        TableName::Devices => push_device(f, t.kind, record_of(&t.devices.list, k, blank_device())),
        TableName::Tasks => push_task(f, record_of(&t.tasks.list, k, TaskRecord::blank())),
        TableName::Jobs => push_job(f, record_of(&t.jobs.list, k, JobRecord::blank())),
    }
}

// The count of a table, as far as it matters: one above the limit stands for all above it.
fn count_of(t: Tables, part: TableName) -> usize
    ensures { result ≡ count_in (limited t) part }
{
    match part {
        TableName::Devices => t.devices.count.min(9),
        TableName::Tasks => t.tasks.count.min(9),
        TableName::Jobs => t.jobs.count.min(17),
    }
}

// The first n records of a table.
pub fn push_records(f: File, t: Tables, part: TableName, n: usize) -> File
    requires { f.count + length (joined (record_in t part) n) ≤ 297 }
    ensures { result ≡ appended f (joined (record_in t part) n) }
{
    let mut out = f;
    for k in 0..n {
        out = push_record(out, t, part, k);
    }
    out
}

// A table after its count.
fn push_section(f: File, t: Tables, part: TableName) -> File
    requires { f.count + length (section_of (limited t) part) ≤ 297 }
    ensures { result ≡ appended f (section_of (limited t) part) }
{
    let n = count_of(t, part);
    let counted = push(f, n as u8);
    push_records(counted, t, part, n)
}

// The file that the tables make.
pub fn file_of(t: Tables) -> File
    ensures { result ≡ held (bytes_of (limited t)) }
{
    let kind = t.kind;
    let marked = push_marker(empty(), kind);
    let a = push_pair(marked, t.horizon);
    let b = push_section(a, t, TableName::Devices);
    let c = push_section(b, t, TableName::Tasks);
    push_section(c, t, TableName::Jobs)
}
