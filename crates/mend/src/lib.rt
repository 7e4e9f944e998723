// Mending a hand-made schedule: the jobs keep the order of their given starts, and each takes the smallest start that it can have without starting before its
// given time. `mend` asks nothing of its caller; specs/Promises.antt says its complete outcome.
#![tactic(auto)]

ghost use Rattle.std.specs.Prelude.{◌≡◌, true, cond, ◌*◌, ◌≤◌, ltb};
ghost use Rattle.schedule.specs.Quantities.{Valid};
ghost use Rattle.planner.specs.Answers.{answered};
ghost use Rattle.mend.specs.Promises.{lending, MendOf, Mended};

use crate::moving::{list_moves, write_starts};
use crate::settling::settle;
use base::Reason;
use planner::{Figures, Refusal};
use request::read;
use schedule::{Misplaced, Recorder};

mod moving; // moving.rt: the starts and the moves, into the lent lists
mod settling; // settling.rt: where the jobs come out

// Whether the lent lists, of these lengths, lack room for one start and one move of each job.
fn lacks_room(jobs: usize, starts: usize, moved: usize) -> bool
    requires { jobs ≤ 16 }
    ensures { result ≡ cond (ltb starts jobs) true (ltb moved (3 * jobs)) }
{
    starts < jobs || moved < 3 * jobs
}

// The start times of a recorder, mended.
fn mend_recorder(
    r: Recorder,
    given: &[u16],
    starts: &mut [u16],
    moved: &mut [u16],
) -> Result<Figures, Refusal>
    requires { Valid r }
    ensures { MendOf given.now (lending starts.old moved.old) r (answered result) (lending starts.new moved.new) }
{
    let n = r.jobs.count;
    if given.len() != n {
        return Err(Refusal::from(Reason::StartCount));
    }
    if lacks_room(n, starts.len(), moved.len()) {
        return Err(Refusal::from(Reason::NoRoom));
    }
    let new = match settle(r, given) {
        Ok(new) => new,
        Err(job) => {
            return Err(Refusal::from(Misplaced {
                reason: Reason::Late,
                job,
            }));
        }
    };
    write_starts(new, n, starts);
    let count = list_moves(given, new, moved);
    Ok(Figures {
        horizon: r.horizon,
        energy: 0,
        count: count as u32,
    })
}

// Mends start times: writes the new starts by job number, and for each job that moved three numbers, its own, its given start and its new one; the count is
// how many moved. Or 17, with the first job that comes out late.
pub fn mend(
    file: &[u8],
    given: &[u16],
    starts: &mut [u16],
    moved: &mut [u16],
) -> Result<Figures, Refusal>
    ensures { Mended file.now given.now (lending starts.old moved.old) (answered result) (lending starts.new moved.new) }
{
    mend_recorder(read(file)?, given, starts, moved)
}
