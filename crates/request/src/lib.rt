// The request file: every string of bytes is read, refused or unfolded.
#![tactic(auto)]

mod checks; // checks.rt: what refuses a record, and the records of a section in turn
mod euclid; // euclid.rt: the greatest common divisor and the least common multiple
mod horizon; // horizon.rt: the horizon, given or worked out from the tasks
mod jobs; // jobs.rt: the jobs in an array, listed or unfolded
mod recorders; // recorders.rt: the recorder of a file without a fault
mod records; // records.rt: what is planned with, from the records of the file
mod sections; // sections.rt: the sections in turn, and the first fault

ghost use Rattle.std.specs.Prelude.{◌≡◌, ◌≤◌, length, drop};
ghost use Rattle.tables.specs.Layout.{marker};
ghost use Rattle.request.specs.Format.{read_as, read_of, reading_in};

pub use crate::checks::{head_of, record_fault, size_of};
pub use crate::horizon::horizon_of;
pub use crate::records::device_of;
pub use crate::sections::{is_mixed, job_count};
use base::Reason;
use schedule::Recorder;
use tables::Kind;

// The records of a section, and what one is checked against besides itself: the kind of the file; the number of devices, and for jobs the horizon.
#[derive(Clone, Copy)]
pub enum Section {
    DeviceRecords(Kind),
    TaskRecords(usize),
    JobRecords(usize, u32),
}

// Reads a file of whatever bytes, by its own kind.
pub fn read(s: &[u8]) -> Result<Recorder, Reason>
    ensures { reading_in result ≡ read_of s.now }
{
    read_by(s, tables::kind_of(s))
}

// Reads a file by a kind, whatever its first bytes say: what stands in the place of the mark is passed over.
pub fn read_by(s: &[u8], kind: Kind) -> Result<Recorder, Reason>
    requires { length (marker kind) ≤ length s.now }
    ensures { reading_in result ≡ read_as kind (drop (length (marker kind)) s.now) }
{
    let from = tables::marker_size(kind);
    read_as(&s[from..], kind)
}

// Reads what follows the mark of a file of a kind. A first pass looks for a fault; only a file without one is laid out, so that no loop carries both a fault and
// an array.
fn read_as(s: &[u8], kind: Kind) -> Result<Recorder, Reason>
    ensures { reading_in result ≡ read_as kind s.now }
{
    sections::fault_of(s, kind)?;
    Ok(recorders::recorder_in(s, kind))
}
