// The result buffer: eleven bytes for what an answer has besides its number.
ghost use Rattle.std.specs.Prelude.{◌≡◌};
ghost use Rattle.calls.specs.Calls.{told};
ghost use Rattle.calls.specs.inside.Cramped.{Cramped};

use crate::bytes::put;
use base::Reason;
use planner::Answer;
use request::read;

pub const RESULT: usize = 11;

// Puts the answer into the buffer, if it has room, and returns its number.
pub fn tell(answer: Answer, res: &mut [u8]) -> u8
    ensures { (result ≡ answer.number) × (res.new ≡ told answer res.old) }
{
    if RESULT <= res.len() {
        put(&mut res[..1], answer.job.0 as u64);
        put(&mut res[1..3], answer.horizon as u64);
        put(&mut res[3..7], answer.energy as u64);
        put(&mut res[7..11], answer.count as u64);
    }
    answer.number
}

// The number where the buffer has no room: the file's, or 15.
pub fn cramped(file: &[u8]) -> u8
    ensures { Cramped file.now result }
{
    match read(file) {
        Err(reason) => reason.number(),
        Ok(_) => Reason::NoRoom.number(),
    }
}
