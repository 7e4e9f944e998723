// What refuses a record, and the records of a section in turn.
ghost use Rattle.std.specs.Prelude.{◌≡◌, ℕ, ◌+◌, ◌*◌, ◌≤◌, ◌<◌, length, ltb, false, ◌-◌};
ghost use Rattle.base.specs.Reasons.{number_in};
ghost use Rattle.base.specs.Refusals.{first_that};
ghost use Rattle.tables.specs.declared.Kind.TheVariants.{Third};
ghost use Rattle.tables.specs.Records.{device_size, device_at};
ghost use Rattle.request.specs.declared.Section.TheVariants.{DeviceRecords};
ghost use Rattle.request.specs.Format.{no_lower, powers_table, device_table, task_table, job_table, lacks, size_of, head_of, record_fault, records_fault};

use super::Section;
use base::Reason;
use tables::{DeviceRecord, JobRecord, Kind, TaskRecord};

// Level i + 1 is one of so many, and does not cost less than the one above it.
fn no_lower(levels: u8, i: u8, above: u16, power: u16) -> bool
    ensures { result ≡ no_lower levels i above power }
{
    i < levels && above <= power
}

// The powers of a device: moving and every level above cost more than a sleep.
fn powers_check(d: DeviceRecord) -> Result<(), Reason>
    ensures { number_in result ≡ first_that (powers_table d) }
{
    if d.pwake <= d.ps
        || d.pshut <= d.ps
        || no_lower(d.levels, 0, d.pw, d.ps)
        || no_lower(d.levels, 1, d.ps, d.ps2)
        || no_lower(d.levels, 2, d.ps2, d.ps3)
        || no_lower(d.levels, 3, d.ps3, d.ps4)
    {
        return Err(Reason::Powers);
    }
    Ok(())
}

// A device with one sleep level.
fn device_check(d: DeviceRecord) -> Result<(), Reason>
    requires { d.levels ≡ 1 }
    ensures { number_in result ≡ first_that (device_table false d) }
{
    if d.wake == 0 || d.shut == 0 {
        return Err(Reason::NoMoveTime);
    }
    powers_check(d)
}

// A record of the third kind: how many powers it has to have is known only once its level count is judged.
fn third_fault(s: &[u8], at: usize) -> Result<(), Reason>
    requires { at + 6 ≤ length s.now }
    ensures { number_in result ≡ first_that (device_table (ltb (length s.now - at) (device_size Third s.now at)) (device_at Third s.now at)) }
{
    let time = s[at];
    let levels = s[at + 5];
    let size = tables::device_size(s, Kind::Third, at);
    let there = s.len() - at;
    if time == 0 {
        return Err(Reason::NoMoveTime); // it moves in no time
    }
    if levels == 0 || 4 < levels {
        return Err(Reason::LevelCount);
    }
    if there < size {
        return Err(Reason::CutShort); // a power is not there
    }
    powers_check(tables::device_at(s, Kind::Third, at))
}

fn device_fault(s: &[u8], kind: Kind, at: usize) -> Result<(), Reason>
    requires { at + head_of (DeviceRecords kind) ≤ length s.now }
    ensures { number_in result ≡ first_that (device_table (ltb (length s.now - at) (device_size kind s.now at)) (device_at kind s.now at)) }
{
    match kind {
        Kind::First | Kind::Second => device_check(tables::device_at(s, kind, at)),
        Kind::Third => third_fault(s, at),
    }
}

// A device set names a device that a file with n devices lacks: no byte does where n is 8.
fn set_lacks(n: usize, set: u8) -> bool
    ensures { result ≡ lacks n set }
{
    n < 8 && 1u32 << n <= set as u32
}

fn task_check(n: usize, k: TaskRecord) -> Result<(), Reason>
    ensures { number_in result ≡ first_that (task_table n k) }
{
    if k.period == 0 || 4096 < k.period {
        return Err(Reason::Period);
    }
    if k.run == 0 || k.period < k.run {
        return Err(Reason::TaskRun);
    }
    if set_lacks(n, k.set) {
        return Err(Reason::DeviceSet);
    }
    Ok(())
}

// The release and the running time may add up to more than 16 bits hold.
fn job_check(n: usize, h: u32, j: JobRecord) -> Result<(), Reason>
    ensures { number_in result ≡ first_that (job_table n h j) }
{
    if set_lacks(n, j.set) {
        return Err(Reason::DeviceSet); // it names a device that is not there
    }
    let end = j.release as u32 + j.run as u32;
    let due = j.deadline as u32;
    if j.run == 0 || due < end || h < due {
        return Err(Reason::JobWindow);
    }
    Ok(())
}

// The bytes of a section's record that stands at a place.
pub fn size_of(s: &[u8], k: Section, at: usize) -> usize
    ensures { result ≡ size_of s.now k at }
{
    match k {
        Section::DeviceRecords(kind) => tables::device_size(s, kind, at),
        Section::TaskRecords(_) => 5,
        Section::JobRecords(_, _) => 7,
    }
}

// How many of them are called for before anything in the record is judged.
pub fn head_of(k: Section) -> usize
    ensures { result ≡ head_of k }
{
    match k {
        Section::DeviceRecords(Kind::First) => 7,
        Section::DeviceRecords(Kind::Second) => 10,
        Section::DeviceRecords(Kind::Third) => 6,
        Section::TaskRecords(_) => 5,
        Section::JobRecords(_, _) => 7,
    }
}

// The refusal of the record at a place: that it is not there, then what is wrong with its fields.
pub fn record_fault(s: &[u8], k: Section, at: usize) -> Result<(), Reason>
    requires { at ≤ length s.now }
    ensures { number_in result ≡ record_fault s.now k at }
{
    if s.len() - at < head_of(k) {
        return Err(Reason::CutShort);
    }
    match k {
        Section::DeviceRecords(kind) => device_fault(s, kind, at),
        Section::TaskRecords(n) => task_check(n, tables::task_at(s, at)),
        Section::JobRecords(n, h) => job_check(n, h, tables::job_at(s, at)),
    }
}

// The first refusal of a section's records.
pub(crate) fn records_fault(s: &[u8], k: Section, count: usize, from: usize) -> Result<(), Reason>
    requires { from ≤ length s.now }
    ensures { number_in result ≡ records_fault s.now k count from }
{
    let mut at = from;
    for _ in 0..count {
        record_fault(s, k, at)?;
        at += size_of(s, k, at);
    }
    Ok(())
}
