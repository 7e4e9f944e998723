// Where a request is refused: the first of its places, in reading order, that is at fault, with the number and the bytes. specs/Places.antt says what the places
// are and which of them is told.
#![tactic(auto)]

mod records; // records.rt: the records of a section in turn
mod sections; // sections.rt: the sections in turn, and the first place at fault

ghost use Rattle.std.specs.Prelude.{◌≡◌, ◌≤◌, length, drop};
ghost use Rattle.tables.specs.Layout.{marker};
ghost use Rattle.faults.specs.Places.{code_of, record_of, judged, FaultAs, FaultOf, TablesFault};

use base::Reason;
use tables::{Kind, Tables, file_of, kind_of, marker_size};

// What can be at fault in a file; a number is that of a device, a task or a job.
#[derive(Clone, Copy)]
pub enum Place {
    Horizon,
    DeviceCount,
    Device(usize),
    TaskCount,
    Task(usize),
    JobCount,
    Job(usize),
    End,
}

impl Place {
    // What it is.
    pub fn code(self) -> u8
        ensures { result ≡ code_of self }
    {
        match self {
            Place::Horizon => 1,
            Place::DeviceCount => 2,
            Place::Device(_) => 3,
            Place::TaskCount => 4,
            Place::Task(_) => 5,
            Place::JobCount => 6,
            Place::Job(_) => 7,
            Place::End => 8,
        }
    }

    // The number of its record, and 0 where it is none.
    pub fn record(self) -> usize
        ensures { result ≡ record_of self }
    {
        match self {
            Place::Device(i) | Place::Task(i) | Place::Job(i) => i,
            _ => 0,
        }
    }
}

// A place at fault: why it is refused, and its bytes, from the first up to, not including, the second.
#[derive(Clone, Copy)]
pub struct PlaceFault {
    pub reason: Reason,
    pub place: Place,
    pub from: usize,
    pub to: usize,
}

// The first place at fault of a file of whatever bytes, read by its own kind.
pub fn fault_of(file: &[u8]) -> Result<(), PlaceFault>
    ensures { FaultOf file.now (judged result) }
{
    fault_by(file, kind_of(file))
}

// That of a file by a kind, whatever its first bytes say: what stands in the place of the mark is passed over.
pub fn fault_by(s: &[u8], kind: Kind) -> Result<(), PlaceFault>
    requires { length (marker kind) ≤ length s.now }
    ensures { FaultAs kind (drop (length (marker kind)) s.now) (judged result) }
{
    let mark = marker_size(kind);
    sections::fault_in(&s[mark..], kind, mark)
}

// The first place at fault of the file that tables make, read by their own kind.
pub fn fault_of_tables(given: Tables) -> Result<(), PlaceFault>
    ensures { TablesFault given (judged result) }
{
    let file = file_of(given);
    fault_by(&file.bytes[..file.count], given.kind)
}
