// The door to whether there is any plan.
ghost use Rattle.planner.specs.Answers.{answered};
ghost use Rattle.planner.specs.Promises.{OfFile};
ghost use Rattle.doors.specs.Promises.{PossibleSpelled, PossibleDoor};

use calls::{RESULT, put_starts, tell};
use doorway::SHUT;
use planner::{Figures, Refusal, told};
use possible::first_schedule;
use request::read;

// The start times go to the first bytes; what is lent beyond one start a job stays as it was. (The recorder is looked at where reading left it: moved out of there, it
// would be on the stack again, below the whole search.)
fn possible_bytes(file: &[u8], budget: u32, starts: &mut [u8]) -> Result<Figures, Refusal>
    ensures { OfFile file.now starts.old (PossibleSpelled budget starts.old) (answered result) starts.new }
{
    let recorder = &read(file)?;
    let mut own = [0u16; 16];
    let places = (starts.len() / 2).min(16);
    let figures = first_schedule(*recorder, budget, &mut own[..places])?;
    let jobs = recorder.jobs.count.min(places);
    put_starts(&own[..jobs], starts);
    Ok(figures)
}

pub fn door_possible(file: &[u8], budget: u32, starts: &mut [u8], res: &mut [u8]) -> u8
    ensures { PossibleDoor file.now budget starts.old res.old result starts.new res.new }
{
    if res.len() < RESULT {
        return SHUT;
    }
    tell(told(possible_bytes(file, budget, starts)), res)
}
