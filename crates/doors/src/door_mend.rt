// The door to mending: two bytes a number, in the given starts, the new ones and the moves.
ghost use Rattle.planner.specs.Answers.{answered};
ghost use Rattle.planner.specs.Promises.{OfFile};
ghost use Rattle.mend.specs.Promises.{lending};
ghost use Rattle.doors.specs.Promises.{MendSpelled, MendDoor};

use calls::{put_starts, tell};
use doorway::{SHUT, hand_starts, is_open};
use mend::mend;
use planner::{Figures, Refusal, told};

// What is lent beyond the new starts and the moves stays as it was.
fn mend_bytes(
    file: &[u8],
    given: &[u16],
    out: &mut [u8],
    moved: &mut [u8],
) -> Result<Figures, Refusal>
    ensures { OfFile file.now (lending out.old moved.old) (MendSpelled given.now (lending out.old moved.old)) (answered result) (lending out.new moved.new) }
{
    let mut starts = [0u16; 16];
    let mut moves = [0u16; 48];
    let places = (out.len() / 2).min(16);
    let numbers = (moved.len() / 2).min(48);
    let figures = mend(file, given, &mut starts[..places], &mut moves[..numbers])?;
    let jobs = given.len().min(places);
    put_starts(&starts[..jobs], out);
    let listed = (figures.count as usize * 3).min(numbers);
    put_starts(&moves[..listed], moved);
    Ok(figures)
}

pub fn door_mend(file: &[u8], starts: &[u8], out: &mut [u8], moved: &mut [u8], res: &mut [u8]) -> u8
    ensures { MendDoor file.now starts.now (lending out.old moved.old) res.old result (lending out.new moved.new) res.new }
{
    if !is_open(starts.len(), res.len()) {
        return SHUT;
    }
    let mut own = [0u16; 17];
    let n = hand_starts(starts, &mut own);
    tell(told(mend_bytes(file, &own[..n], out, moved)), res)
}
