// The records of a section in turn, each with its bytes.
ghost use Rattle.std.specs.Prelude.{◌≡◌, ℕ, ◌≤◌, length};
ghost use Rattle.base.specs.Reasons.{number_of};
ghost use Rattle.faults.specs.Places.{place_of, called_for, record_place, no_fault, judged};
ghost use Rattle.faults.specs.inside.Walk.{or_next, records_walk};

use crate::{Place, PlaceFault};
use base::Reason;
use request::{Section, head_of, record_fault, size_of};

fn place_of(k: Section, i: usize) -> Place
    ensures { result ≡ place_of k i }
{
    match k {
        Section::DeviceRecords(_) => Place::Device(i),
        Section::TaskRecords(_) => Place::Task(i),
        Section::JobRecords(_, _) => Place::Job(i),
    }
}

// How many bytes of a record are called for when it is refused: its time and its level count come before the powers that a level count calls for.
fn called_for(s: &[u8], k: Section, at: usize, reason: Reason) -> usize
    ensures { result ≡ called_for s.now k at (number_of reason) }
{
    match reason {
        Reason::NoMoveTime | Reason::LevelCount => head_of(k),
        _ => size_of(s, k, at),
    }
}

// Record i of a section, which stands at a place.
fn record_place(s: &[u8], mark: usize, k: Section, i: usize, at: usize) -> Result<(), PlaceFault>
    requires { (at ≤ length s.now) × (mark ≤ 2) }
    ensures { judged result ≡ or_next (record_place mark s.now k i at) no_fault }
{
    let Err(reason) = record_fault(s, k, at) else {
        return Ok(());
    };
    let size = called_for(s, k, at, reason);
    Err(PlaceFault {
        reason,
        place: place_of(k, i),
        from: mark + at,
        to: mark + (at + size),
    })
}

// The records of a section in turn: the first that is at fault decides.
pub(crate) fn records_place(
    s: &[u8],
    mark: usize,
    k: Section,
    count: usize,
    from: usize,
) -> Result<(), PlaceFault>
    requires { (from ≤ length s.now) × (mark ≤ 2) }
    ensures { judged result ≡ records_walk mark s.now k count 0 from }
{
    let mut at = from;
    for i in 0..count {
        record_place(s, mark, k, i, at)?;
        at += size_of(s, k, at);
    }
    Ok(())
}
