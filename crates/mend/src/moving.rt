// The mended starts, written into the lent lists: all starts by job number, and the jobs that moved.
ghost use Rattle.std.specs.Prelude.{◌≡◌, ◌++◌, ◌+◌, ◌*◌, ◌≤◌, ◌<◌, length, drop};
ghost use Rattle.base.specs.Lists.{up_to};
ghost use Rattle.schedule.specs.Listing.{start};
ghost use Rattle.mend.specs.Mending.{moves, numbers};
ghost use Rattle.mend.specs.inside.Moving.{count_with, list_with};

use base::JobNumber;

// Writes the first n starts, and keeps the places after them.
pub fn write_starts(new: [u16; 16], n: usize, starts: &mut [u16])
    requires { (n ≤ 16) × (n ≤ length starts.old) }
    ensures { starts.new ≡ up_to (start new) n ++ drop n starts.old }
{
    starts[..n].copy_from_slice(&new[..n]);
}

// Lists a job after `count` others if it moved, and says how many there are then.
fn list_move(job: JobNumber, given: u16, new: u16, count: usize, moved: &mut [u16]) -> usize
    requires { (job.0 < 16) × (3 * count + 3 ≤ length moved.old) }
    ensures number { result ≡ count_with given new count }
    ensures list { moved.new ≡ list_with job.0 given new count moved.old }
{
    if given == new {
        return count;
    }
    let at = 3 * count;
    moved[at] = job.0 as u16;
    moved[at + 1] = given;
    moved[at + 2] = new;
    count + 1
}

// Lists the jobs that moved, by job number, and says how many they are.
pub fn list_moves(given: &[u16], new: [u16; 16], moved: &mut [u16]) -> usize
    requires { (length given.now ≤ 16) × (3 * length given.now ≤ length moved.old) }
    ensures number { result ≡ length (moves given.now new (length given.now)) }
    ensures list { moved.new ≡ numbers (moves given.now new (length given.now)) ++ drop (3 * length (moves given.now new (length given.now))) moved.old }
{
    let mut count = 0;
    for job in 0..given.len() {
        count = list_move(JobNumber(job), given[job], new[job], count, moved);
    }
    count
}
