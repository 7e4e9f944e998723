// The door to the verdict.
ghost use Rattle.doors.specs.Promises.{VerdictDoor};

use calls::tell;
use doorway::{SHUT, hand_starts, is_open};
use planner::{told, verdict};

pub fn door_verdict(file: &[u8], starts: &[u8], res: &mut [u8]) -> u8
    ensures { VerdictDoor file.now starts.now res.old result res.new }
{
    if !is_open(starts.len(), res.len()) {
        return SHUT;
    }
    let mut own = [0u16; 17];
    let n = hand_starts(starts, &mut own);
    tell(told(verdict(file, &own[..n])), res)
}
