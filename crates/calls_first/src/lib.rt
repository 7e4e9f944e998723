// The function by which a C program asks whether a request has any plan: `first_plan`, with bytes in and out as the functions of crate calls have them.
// include/floebucket.h declares it; specs/FirstCall.antt says its complete outcome.
#![tactic(auto)]

ghost use Rattle.first.specs.Promises.{FirstOf};
ghost use Rattle.planner.specs.Answers.{answered};
ghost use Rattle.planner.specs.Promises.{OfFile};
ghost use Rattle.calls.specs.Calls.{StartsOf};
ghost use Rattle.calls_first.specs.FirstCall.{FirstCalled};

use calls::{RESULT, cramped, put_starts, read_roomed, tell};
use first::first_of;
use planner::{Figures, Refusal, told};

// The start times of a plan go to the first bytes; a refusal writes nothing.
fn first_bytes(file: &[u8], bytes: &mut [u8]) -> Result<Figures, Refusal>
    ensures { OfFile file.now bytes.old (StartsOf FirstOf bytes.old) (answered result) bytes.new }
{
    let recorder = read_roomed(file, bytes.len())?;
    let mut own = [0u16; 16];
    let found = first_of(recorder, &mut own)?;
    put_starts(&own[..recorder.jobs.count], bytes);
    Ok(found)
}

// The start times of the first of all schedules that meet all deadlines, if there is one.
pub fn floe_first(file: &[u8], starts: &mut [u8], res: &mut [u8]) -> u8
    ensures { FirstCalled file.now starts.old res.old result starts.new res.new }
{
    if res.len() < RESULT {
        return cramped(file);
    }
    tell(told(first_bytes(file, starts)), res)
}
