// The last start of each job, and the devices that it uses, in a list a job: a start asks no device that its job does not use.
ghost use Rattle.std.specs.Prelude.{◌<◌, ◌≤◌, length};
ghost use Rattle.schedule.specs.Quantities.{Valid};
ghost use Rattle.flat.specs.inside.Flat.{recorder_of};
ghost use Rattle.extras.specs.inside.Parts.{LaidJob, LaidJobs};

use crate::{COUNTS, LASTS, LISTS};
use flat::{Flat, deadline_of, device_count, is_used, run_of};

// The last start of job j, and its devices. Every device is written down, and the next one in its place unless the job uses it.
fn lay_job(r: &Flat, j: usize, extras: &mut [u32])
    requires { Valid (recorder_of r.now) × ((j < 16) × (208 ≤ length extras.old)) }
    ensures { LaidJob (recorder_of r.now) j extras.old extras.new }
{
    let mut n: u32 = 0;
    for k in 0..device_count(r) {
        extras[LISTS + 8 * j + n as usize] = k as u32;
        n += u32::from(is_used(r, k, j));
    }
    extras[COUNTS + j] = n;
    extras[LASTS + j] = u32::from(deadline_of(r, j)).saturating_sub(u32::from(run_of(r, j)));
}

// Those of all jobs.
pub fn lay_jobs(r: &Flat, extras: &mut [u32])
    requires { Valid (recorder_of r.now) × (208 ≤ length extras.old) }
    ensures { LaidJobs (recorder_of r.now) 16 extras.old extras.new }
{
    for j in 0..16 {
        lay_job(r, j, extras);
    }
}
