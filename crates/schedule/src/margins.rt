// The margins of start times.
ghost use Rattle.std.specs.Prelude.{◌≡◌, ◌++◌, ◌+◌, ◌≤◌, length, drop};
ghost use Rattle.std.proofs.Math.IntN.{sub_ℕ};
ghost use Rattle.base.specs.Lists.{up_to};
ghost use Rattle.schedule.specs.Quantities.{jobs, Valid};
ghost use Rattle.schedule.specs.Listing.{margin};

use crate::Recorder;

// Start times come from outside, so that the margin of one takes 18 bits and a sign.
fn margin_of(deadline: u16, start: u16, run: u16) -> i32
    ensures { result ≡ sub_ℕ deadline (start + run) }
{
    // `as`, since over what `u32::from` gives the difference below was not proved.
    let end = start as u32 + run as u32;
    deadline as i32 - end as i32
}

// Writes each job's margin into the lent numbers, and keeps the places after the last job.
pub fn write_margins(r: Recorder, starts: &[u16], out: &mut [i32])
    requires { Valid r × (length starts.now ≡ jobs r) × (jobs r ≤ length out.old) }
    ensures { out.new ≡ up_to (margin r starts.now) (jobs r) ++ drop (jobs r) out.old }
{
    let jobs = r.jobs;
    for j in 0..jobs.count {
        let job = jobs.list[j];
        out[j] = margin_of(job.deadline, starts[j], job.run);
    }
}
