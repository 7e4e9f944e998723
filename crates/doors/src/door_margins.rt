// The door to the margins: four bytes each.
ghost use Rattle.std.specs.Prelude.{◌≡◌};
ghost use Rattle.planner.specs.Answers.{answered};
ghost use Rattle.planner.specs.Promises.{OfFile};
ghost use Rattle.doors.specs.Promises.{complement, MarginsSpelled, MarginsDoor};

use calls::tell;
use doorway::{SHUT, hand_starts, is_open, put_fours};
use planner::{Figures, Refusal, margins, told};

// The margins as four bytes each, a negative one by its two's complement; what is lent beyond one place a job stays as it was.
fn margin_bytes(file: &[u8], starts: &[u16], out: &mut [u8]) -> Result<Figures, Refusal>
    ensures { OfFile file.now out.old (MarginsSpelled starts.now out.old) (answered result) out.new }
{
    let mut room = [0i32; 16];
    let places = (out.len() / 4).min(16);
    let figures = margins(file, starts, &mut room[..places])?;
    let words = room.map(
        |margin: i32| -> u32
            ensures { result ≡ complement margin }
        { margin.cast_unsigned() },
    );
    let jobs = starts.len().min(places);
    put_fours(&words[..jobs], out);
    Ok(figures)
}

pub fn door_margins(file: &[u8], starts: &[u8], out: &mut [u8], res: &mut [u8]) -> u8
    ensures { MarginsDoor file.now starts.now out.old res.old result out.new res.new }
{
    if !is_open(starts.len(), res.len()) {
        return SHUT;
    }
    let mut own = [0u16; 17];
    let n = hand_starts(starts, &mut own);
    tell(told(margin_bytes(file, &own[..n], out)), res)
}
