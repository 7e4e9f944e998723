// The public operations on the bytes of a request file. None asks anything of its caller: every file, of whatever bytes, every list of start times and every
// lent buffer gets its answer. specs/Promises.antt says for each the complete outcome, the answer and every lent buffer; a memory that was used may hold anything.
#![tactic(auto)]

ghost use Rattle.std.specs.Prelude.{◌<◌};
ghost use Rattle.planner.specs.Answers.{answered, listed_as};
ghost use Rattle.planner.specs.Promises.{Checked, Sized, Margined, Judged, Rowed, Searched, KeptUnless, Written, TablesGiven};

use crate::recorders::sizes_of;
use base::{JobNumber, Reason};
use request::{read, read_by};
use tables::{Tables, file_of, tables_in};

mod answers; // answers.rt: what the operations give
mod recorders; // recorders.rt: the operations on a recorder, once its file is read

pub use crate::answers::{Figures, Refusal, told};
pub use crate::recorders::{margins_of, rows_of, search_in_of, search_of, verdict_of};

// An answer as numbers, for C: 0 or the number of its refusal, and what the operation works out; 0 elsewhere.
#[derive(Clone, Copy)]
pub struct Answer {
    pub number: u8,
    pub job: JobNumber,
    pub horizon: u16,
    pub energy: u32,
    pub count: u32,
}

// The tables of a file, and its horizon.
#[derive(Clone, Copy)]
pub struct FileTables {
    pub horizon: u16,
    pub tables: Tables,
}

// Whether the file is accepted, and its horizon.
pub fn check(file: &[u8]) -> Result<Figures, Refusal>
    ensures { Checked file.now (answered result) }
{
    let accepted = read(file)?;
    Ok(Figures {
        horizon: accepted.horizon,
        energy: 0,
        count: 0,
    })
}

// Writes how many devices, tasks and jobs the request has, a byte each: of jobs all that are planned, those that tasks release too.
pub fn sizes(file: &[u8], out: &mut [u8]) -> Result<Figures, Refusal>
    ensures { Sized file.now out.old (answered result) out.new }
{
    sizes_of(read(file)?, tables_in(file).tasks.count, out)
}

// Writes the margin of each job, for any start times.
pub fn margins(file: &[u8], starts: &[u16], out: &mut [i32]) -> Result<Figures, Refusal>
    ensures { Margined file.now starts.now out.old (answered result) out.new }
{
    margins_of(read(file)?, starts, out)
}

// Whether the start times are feasible, with the plan's energy; or their first fault.
pub fn verdict(file: &[u8], starts: &[u16]) -> Result<Figures, Refusal>
    ensures { Judged file.now starts.now (answered result) }
{
    verdict_of(read(file)?, starts)
}

// Writes the row of every device, the legal row of least energy, for feasible start times.
pub fn rows(file: &[u8], starts: &[u16], out: &mut [u8]) -> Result<Figures, Refusal>
    ensures { Rowed file.now starts.now out.old (answered result) out.new }
{
    rows_of(read(file)?, starts, out)
}

// Writes the start times of the first of the least-energy schedules that meet all deadlines, if the budget covers the vertices of the search.
pub fn search(file: &[u8], budget: u32, starts: &mut [u16]) -> Result<Figures, Refusal>
    ensures { Searched file.now budget starts.old (answered result) starts.new }
{
    search_of(read(file)?, budget, starts)
}

// The same with a memory that the caller lends, of any length and whatever it holds: the more, the faster. It is written to only where more than 256 vertices are
// counted.
pub fn search_in(
    file: &[u8],
    budget: u32,
    memory: &mut [u64],
    starts: &mut [u16],
) -> Result<Figures, Refusal>
    ensures planned { Searched file.now budget starts.old (answered result) starts.new }
    ensures lent { KeptUnless (256 < (answered result).count) memory.old memory.new }
{
    search_in_of(read(file)?, budget, memory, starts)
}

// Writes the request file that the tables make, if the reader accepts it.
pub fn write(given: Tables, out: &mut [u8]) -> Result<Figures, Refusal>
    ensures { Written given out.old (answered result) out.new }
{
    let file = file_of(given);
    let n = file.count;
    let bytes = file.bytes;
    let kind = given.kind;
    let recorder = read_by(&bytes[..n], kind)?;
    if out.len() < n {
        return Err(Refusal::from(Reason::NoRoom));
    }
    out[..n].copy_from_slice(&bytes[..n]);
    Ok(Figures {
        horizon: recorder.horizon,
        energy: 0,
        count: n as u32,
    })
}

// The tables of a file.
pub fn tables_of(file: &[u8]) -> Result<FileTables, Refusal>
    ensures { TablesGiven file.now (listed_as result) }
{
    let recorder = read(file)?;
    Ok(FileTables {
        horizon: recorder.horizon,
        tables: tables_in(file),
    })
}
