// The tables of a file, record by record.
ghost use Rattle.std.specs.Prelude.{◌≡◌, ℕ, List, ◌+◌, ◌*◌, ◌≤◌, ◌<◌, min, length};
ghost use Rattle.base.specs.Bytes.{byte_at, pair_at};
ghost use Rattle.base.specs.Refusals.{after};
ghost use Rattle.tables.specs.Records as Records;
ghost use Rattle.tables.specs.Records.{first_at, second_at, third_at, power_of, device_at, device_size, task_at, job_at, blank_device, blank_task, blank_job};
ghost use Rattle.tables.specs.Layout.{kind_of, body_of, devices_held, tasks_held, jobs_held, table_held, tables_as, tables_of, no_tables};
ghost use Rattle.tables.specs.inside.Held.{Whole};

use crate::kinds::{device_place, device_size, kind_of, marker_size};
use crate::{
    DeviceRecord, DeviceTable, JobRecord, JobTable, Kind, Table, Tables, TaskRecord, TaskTable,
};

// Both moves take the same time at the same power.
pub fn leveled(
    t: u8,
    pw: u16,
    p0: u16,
    levels: u8,
    ps: u16,
    ps2: u16,
    ps3: u16,
    ps4: u16,
) -> DeviceRecord
    ensures { result ≡ Records.leveled t pw p0 levels ps ps2 ps3 ps4 }
{
    DeviceRecord {
        wake: t,
        shut: t,
        pw,
        ps,
        pwake: p0,
        pshut: p0,
        levels,
        ps2,
        ps3,
        ps4,
    }
}

// The same with one sleep level.
pub fn averaged(t: u8, pw: u16, ps: u16, p0: u16) -> DeviceRecord
    ensures { result ≡ Records.averaged t pw ps p0 }
{
    leveled(t, pw, p0, 1, ps, 0, 0, 0)
}

pub fn first_at(s: &[u8], at: usize) -> DeviceRecord
    requires { at + 7 ≤ length s.now }
    ensures { result ≡ first_at s.now at }
{
    averaged(
        s[at],
        base::pair_at(s, at + 1),
        base::pair_at(s, at + 3),
        base::pair_at(s, at + 5),
    )
}

fn second_at(s: &[u8], at: usize) -> DeviceRecord
    requires { at + 10 ≤ length s.now }
    ensures { result ≡ second_at s.now at }
{
    DeviceRecord {
        wake: s[at],
        shut: s[at + 1],
        pw: base::pair_at(s, at + 2),
        ps: base::pair_at(s, at + 4),
        pwake: base::pair_at(s, at + 6),
        pshut: base::pair_at(s, at + 8),
        levels: 1,
        ps2: 0,
        ps3: 0,
        ps4: 0,
    }
}

// The power of level i + 1, which stands at a place if n levels have it.
fn power_at(s: &[u8], at: usize, n: u8, i: u8) -> u16
    requires { i < n → at + 1 < length s.now }
    ensures { result ≡ power_of n i (pair_at s.now at) }
{
    if i < n { base::pair_at(s, at) } else { 0 }
}

fn third_at(s: &[u8], at: usize) -> DeviceRecord
    requires { at + (6 + 2 * min (byte_at s.now (at + 5)) 4) ≤ length s.now }
    ensures { result ≡ third_at s.now at }
{
    let n = s[at + 5];
    leveled(
        s[at],
        base::pair_at(s, at + 1),
        base::pair_at(s, at + 3),
        n,
        power_at(s, at + 6, n, 0),
        power_at(s, at + 8, n, 1),
        power_at(s, at + 10, n, 2),
        power_at(s, at + 12, n, 3),
    )
}

pub fn device_at(s: &[u8], kind: Kind, at: usize) -> DeviceRecord
    requires { at + device_size kind s.now at ≤ length s.now }
    ensures { result ≡ device_at kind s.now at }
{
    match kind {
        Kind::First => first_at(s, at),
        Kind::Second => second_at(s, at),
        Kind::Third => third_at(s, at),
    }
}

pub fn task_at(s: &[u8], at: usize) -> TaskRecord
    requires { at + 4 < length s.now }
    ensures { result ≡ task_at s.now at }
{
    TaskRecord {
        period: base::pair_at(s, at),
        run: base::pair_at(s, at + 2),
        set: s[at + 4],
    }
}

pub fn job_at(s: &[u8], at: usize) -> JobRecord
    requires { at + 6 < length s.now }
    ensures { result ≡ job_at s.now at }
{
    JobRecord {
        release: base::pair_at(s, at),
        deadline: base::pair_at(s, at + 2),
        run: base::pair_at(s, at + 4),
        set: s[at + 6],
    }
}

pub fn blank_device() -> DeviceRecord
    ensures { result ≡ blank_device }
{
    averaged(0, 0, 0, 0)
}

// Not read as the other tables are: its records have no one size.
// The n devices from a place on: each record stands after the one before it.
pub fn devices_at(s: &[u8], kind: Kind, n: usize, from: usize) -> DeviceTable
    requires { (n ≤ 8) × (after (device_size kind s.now) n from ≤ length s.now) }
    ensures { result ≡ devices_held (λ k. device_at kind s.now (after (device_size kind s.now) k from)) n }
{
    let mut list = [blank_device(); 8];
    let mut at = from;
    for k in 0..n {
        list[k] = device_at(s, kind, at);
        at += device_size(s, kind, at);
    }
    Table { count: n, list }
}

// A record that has as many bytes wherever it stands.
pub(crate) trait Record: Copy + Drop {
    ghost blank: { Self };

    ghost SIZE: { ℕ };

    ghost read_at: { List ℕ → ℕ → Self };

    const SIZE: usize;

    fn blank() -> Self
        ensures { result ≡ blank };

    fn read(s: &[u8], at: usize) -> Self
        requires { at + SIZE ≤ length s.now }
        ensures { result ≡ read_at s.now at };
}

impl Record for TaskRecord {
    ghost blank = { blank_task };

    ghost SIZE = { 5 };

    ghost read_at = { task_at };

    const SIZE: usize = 5;

    fn blank() -> TaskRecord {
        TaskRecord::default()
    }

    fn read(s: &[u8], at: usize) -> TaskRecord {
        task_at(s, at)
    }
}

impl Record for JobRecord {
    ghost blank = { blank_job };

    ghost SIZE = { 7 };

    ghost read_at = { job_at };

    const SIZE: usize = 7;

    fn blank() -> JobRecord {
        JobRecord::default()
    }

    fn read(s: &[u8], at: usize) -> JobRecord {
        job_at(s, at)
    }
}

// The n records of a table, from a place on.
fn table_at<T: Record, const N: usize>(s: &[u8], n: usize, from: usize) -> Table<T, N>
    requires { (n ≤ N) × (from + n * T.SIZE ≤ length s.now) }
    ensures { result ≡ table_held N T.blank (λ i. T.read_at s.now (from + i * T.SIZE)) n }
{
    let mut list = [T::blank(); N];
    for i in 0..n {
        list[i] = T::read(s, from + i * T::SIZE);
    }
    Table { count: n, list }
}

pub fn tasks_at(s: &[u8], n: usize, from: usize) -> TaskTable
    requires { (n ≤ 8) × (from + n * 5 ≤ length s.now) }
    ensures { result ≡ tasks_held (λ i. task_at s.now (from + i * 5)) n }
{
    table_at(s, n, from)
}

pub fn jobs_at(s: &[u8], n: usize, from: usize) -> JobTable
    requires { (n ≤ 16) × (from + n * 7 ≤ length s.now) }
    ensures { result ≡ jobs_held (λ j. job_at s.now (from + j * 7)) n }
{
    table_at(s, n, from)
}

// The tables that follow the mark of a file of a kind, where they are all there.
fn tables_as(s: &[u8], kind: Kind) -> Tables
    requires { Whole kind s.now }
    ensures { result ≡ tables_as kind s.now }
{
    let n = s[2] as usize;
    let at = device_place(s, kind, n);
    let m = s[at] as usize;
    let place = at + 1 + m * 5;
    let count = s[place] as usize;
    let devices = devices_at(s, kind, n, 3);
    let tasks = tasks_at(s, m, at + 1);
    let jobs = jobs_at(s, count, place + 1);
    Tables {
        kind,
        horizon: base::pair_at(s, 0),
        devices,
        tasks,
        jobs,
    }
}

// The tables of a file that has them all.
pub fn tables_in(s: &[u8]) -> Tables
    requires { Whole (kind_of s.now) (body_of s.now) }
    ensures { result ≡ tables_of s.now }
{
    let kind = kind_of(s);
    let from = marker_size(kind);
    tables_as(&s[from..], kind)
}

// What is handed on with a refusal.
pub fn no_tables() -> Tables
    ensures { result ≡ no_tables }
{
    Tables {
        kind: Kind::First,
        horizon: 0,
        devices: Table {
            count: 0,
            list: [blank_device(); 8],
        },
        tasks: Table {
            count: 0,
            list: [TaskRecord::blank(); 8],
        },
        jobs: Table {
            count: 0,
            list: [JobRecord::blank(); 16],
        },
    }
}
