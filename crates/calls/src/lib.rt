// The functions that a C program calls with numbers and byte buffers: the file check, the sizes, the search and the rows. Each buffer is a pointer and a length; each
// function returns the number of its answer, and puts the rest of it into the result buffer. include/floebucket.h declares them; specs/Calls.antt says for each
// the complete outcome, the number and every buffer; a memory that was used may hold anything.
#![tactic(auto)]

ghost use Rattle.calls.specs.Calls.{CheckCalled, SizesCalled, SearchCalled, SearchInCalled, RowsCalled};

use crate::paired::{rows_call, search_bytes};
use planner::{check, told};

mod bytes; // bytes.rt: numbers as bytes, the high byte first
mod paired; // paired.rt: start times as pairs of bytes
mod results; // results.rt: the result buffer

pub use crate::bytes::{get_starts, put, put_starts};
pub use crate::paired::read_roomed;
pub use crate::results::{RESULT, cramped, tell};

// Whether the file is accepted, and its horizon.
pub fn floe_check(file: &[u8], res: &mut [u8]) -> u8
    ensures { CheckCalled file.now res.old result res.new }
{
    if res.len() < RESULT {
        return cramped(file);
    }
    tell(told(check(file)), res)
}

// How many devices, tasks and jobs the request has, a byte each: of jobs all that are planned, those that tasks release too.
pub fn floe_sizes(file: &[u8], sizes: &mut [u8], res: &mut [u8]) -> u8
    ensures { SizesCalled file.now sizes.old res.old result sizes.new res.new }
{
    if res.len() < RESULT {
        return cramped(file);
    }
    tell(told(planner::sizes(file, sizes)), res)
}

// The start times of the first of the least-energy schedules that meet all deadlines, if the budget covers the vertices of the search.
pub fn floe_search(file: &[u8], budget: u32, starts: &mut [u8], res: &mut [u8]) -> u8
    ensures { SearchCalled file.now budget starts.old res.old result starts.new res.new }
{
    if res.len() < RESULT {
        return cramped(file);
    }
    let mut memory = [0u64; 12288];
    tell(told(search_bytes(file, budget, &mut memory, starts)), res)
}

// The same with a memory that the caller lends, of any length and whatever it holds. It is written to only where more than 256 vertices are counted.
pub fn floe_search_in(
    file: &[u8],
    budget: u32,
    memory: &mut [u64],
    starts: &mut [u8],
    res: &mut [u8],
) -> u8
    ensures called { SearchCalled file.now budget starts.old res.old result starts.new res.new }
    ensures lent { SearchInCalled file.now budget memory.old starts.old res.old result memory.new starts.new res.new }
{
    if res.len() < RESULT {
        return cramped(file);
    }
    tell(told(search_bytes(file, budget, memory, starts)), res)
}

// The row of every device, the legal row of least energy, for feasible start times.
pub fn floe_rows(file: &[u8], starts: &[u8], out: &mut [u8], res: &mut [u8]) -> u8
    ensures { RowsCalled file.now starts.now out.old res.old result out.new res.new }
{
    let rows = rows_call(file, starts, res, out);
    tell(told(rows), res)
}
