// The door to stepping through a round: two bytes a start, four an energy.
ghost use Rattle.planner.specs.Answers.{answered};
ghost use Rattle.planner.specs.Promises.{OfFile};
ghost use Rattle.doors.specs.Promises.{StepsSpelled, StepDoor};

use calls::tell;
use doorway::{SHUT, hand_starts, is_open, put_fours};
use planner::{Figures, Refusal, told};
use request::read;
use stepper::steps_of;

// What is lent beyond one energy a device stays as it was.
fn step_bytes(file: &[u8], starts: &[u16], out: &mut [u8]) -> Result<Figures, Refusal>
    ensures { OfFile file.now out.old (StepsSpelled file.now starts.now out.old) (answered result) out.new }
{
    let recorder = read(file)?;
    let mut room = [0u32; 8];
    let places = (out.len() / 4).min(8);
    let figures = steps_of(file, recorder, starts, &mut room[..places])?;
    let devices = recorder.devices.count.min(places);
    put_fours(&room[..devices], out);
    Ok(figures)
}

pub fn door_step(file: &[u8], starts: &[u8], out: &mut [u8], res: &mut [u8]) -> u8
    ensures { StepDoor file.now starts.now out.old res.old result out.new res.new }
{
    if !is_open(starts.len(), res.len()) {
        return SHUT;
    }
    let mut own = [0u16; 17];
    let n = hand_starts(starts, &mut own);
    tell(told(step_bytes(file, &own[..n], out)), res)
}
