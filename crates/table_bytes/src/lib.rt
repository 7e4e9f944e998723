// Tables as bytes, for the doors: read from them, and laid out as them. specs/TableBytes.antt says what each byte means.
#![tactic(auto)]

ghost use Rattle.std.specs.Prelude.{◌≡◌, true, false, ◌+◌, ◌*◌, ◌≤◌, ◌<◌, min, length};
ghost use Rattle.base.specs.Bytes.{pair_at};
ghost use Rattle.base.specs.Refusals.{after};
ghost use Rattle.tables.specs.Records.{device_size};
ghost use Rattle.tables.specs.inside.Held.{held};
ghost use Rattle.table_bytes.specs.TableBytes.{kind_named, tasks_from, jobs_from, AreTables, devices_in, tasks_in, jobs_in, tables_from, kind_byte, head_of, table_bytes, Few};

use base::pair_at;
use tables::{
    DeviceTable, File, JobTable, Kind, Table, TableName, Tables, TaskTable, device_size,
    devices_at, empty, jobs_at, push, push_pair, push_records, tasks_at,
};

const HEAD: usize = 9;

fn count_at(s: &[u8], at: usize) -> usize
    requires { at + 1 < length s.now }
    ensures { result ≡ pair_at s.now at }
{
    pair_at(s, at) as usize
}

// ---- from bytes

// No `TryFrom`: whoever asks has tested the byte already (`is_tables`), and would test a `Result` a second time.
fn kind_named(byte: u8) -> Kind
    ensures { result ≡ kind_named byte }
{
    match byte {
        3 => Kind::Third,
        2 => Kind::Second,
        _ => Kind::First,
    }
}

// Where the records of n devices end, whether they are all there or not.
fn devices_end(s: &[u8], kind: Kind, n: usize) -> usize
    requires { n ≤ 8 }
    ensures { (result ≡ after (device_size kind s.now) n 9) × (result ≤ 121) }
{
    let mut at = HEAD;
    for _k in 0..n {
        at += device_size(s, kind, at);
    }
    at
}

fn tasks_from(s: &[u8]) -> usize
    requires { 9 ≤ length s.now }
    ensures { (result ≡ tasks_from s.now) × (result ≤ 121) }
{
    devices_end(s, kind_named(s[0]), count_at(s, 3).min(8))
}

fn jobs_from(s: &[u8]) -> usize
    requires { 9 ≤ length s.now }
    ensures { (result ≡ jobs_from s.now) × (result ≤ 161) }
{
    tasks_from(s) + count_at(s, 5).min(8) * 5
}

// Whether these are tables: of some kind, and as long as their counts say.
pub fn is_tables(s: &[u8]) -> bool
    ensures { (result ≡ true → AreTables s.now) × (result ≡ false → AreTables s.now → ⊥) }
{
    HEAD <= s.len() && matches!(s[0], 1..=3) && jobs_from(s) + count_at(s, 7).min(16) * 7 == s.len()
}

// The count as it stands, and the records that are there.
fn devices_in(s: &[u8], kind: Kind) -> DeviceTable
    requires { (9 ≤ length s.now) × (after (device_size kind s.now) (min (pair_at s.now 3) 8) 9 ≤ length s.now) }
    ensures { result ≡ devices_in kind s.now }
{
    let count = count_at(s, 3);
    let held = devices_at(s, kind, count.min(8), HEAD);
    Table { count, ..held }
}

fn tasks_in(s: &[u8], from: usize) -> TaskTable
    requires { (9 ≤ length s.now) × (from + min (pair_at s.now 5) 8 * 5 ≤ length s.now) }
    ensures { result ≡ tasks_in s.now from }
{
    let count = count_at(s, 5);
    let held = tasks_at(s, count.min(8), from);
    Table { count, ..held }
}

fn jobs_in(s: &[u8], from: usize) -> JobTable
    requires { (9 ≤ length s.now) × (from + min (pair_at s.now 7) 16 * 7 ≤ length s.now) }
    ensures { result ≡ jobs_in s.now from }
{
    let count = count_at(s, 7);
    let held = jobs_at(s, count.min(16), from);
    Table { count, ..held }
}

pub fn tables_from(s: &[u8]) -> Tables
    requires { AreTables s.now }
    ensures { result ≡ tables_from s.now }
{
    let kind = kind_named(s[0]);
    let devices = devices_in(s, kind);
    let tasks = tasks_in(s, tasks_from(s));
    let jobs = jobs_in(s, jobs_from(s));
    Tables {
        kind,
        horizon: pair_at(s, 1),
        devices,
        tasks,
        jobs,
    }
}

// ---- to bytes

fn kind_byte(kind: Kind) -> u8
    ensures { result ≡ kind_byte kind }
{
    kind as u8
}

// The bytes before the records.
#[tactic(auto, unfolding(tables::specs::inside::Held::held, tables::specs::inside::Held::appended))]
fn head(kind: Kind, horizon: u16, devices: u16, tasks: u16, jobs: u16) -> File
    ensures { result ≡ held (head_of kind horizon devices tasks jobs) }
{
    let a = push(empty(), kind_byte(kind));
    let b = push_pair(a, horizon);
    let c = push_pair(b, devices);
    let d = push_pair(c, tasks);
    push_pair(d, jobs)
}

pub fn bytes_of(t: Tables) -> File
    requires { Few t }
    ensures { (result ≡ held (table_bytes t)) × (result.count ≤ 273) }
{
    let kind = t.kind;
    let devices = t.devices.count;
    let tasks = t.tasks.count;
    let jobs = t.jobs.count;
    let first = head(kind, t.horizon, devices as u16, tasks as u16, jobs as u16);
    let second = push_records(first, t, TableName::Devices, devices);
    let third = push_records(second, t, TableName::Tasks, tasks);
    push_records(third, t, TableName::Jobs, jobs)
}
