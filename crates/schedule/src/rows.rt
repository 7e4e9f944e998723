// The rows of a plan, one for each device, and their energy.
ghost use Rattle.std.specs.Prelude.{◌≡◌, ◌++◌, ◌*◌, ◌≤◌, length, drop};
ghost use Rattle.schedule.specs.Quantities.{Valid};
ghost use Rattle.schedule.specs.Listing.{Feasible, laid};
ghost use Rattle.schedule.specs.Visiting.{plan_energy, plan_row};

use crate::Recorder;
use crate::ordering::running_order;
use crate::using::uses_of;
use device::{energy_of, write_row};

// The energy of the plan with these start times.
pub fn plan_energy(r: Recorder, starts: &[u16]) -> u32
    requires { Valid r × Feasible r starts.now }
    ensures { result ≡ plan_energy r starts.now }
{
    let devices = r.devices;
    let order = running_order(starts);
    let mut sum: u32 = 0;
    for k in 0..devices.count {
        let uses = uses_of(r, starts, order, k);
        sum += energy_of(r.round, devices.list[k], r.horizon, uses);
    }
    sum
}

// Writes the plan's rows into the lent bytes, the row of device k from place k * H on, keeps what follows the last row, and gives the plan's energy. The
// running order is found once for all devices.
pub fn write_rows(r: Recorder, starts: &[u16], out: &mut [u8]) -> u32
    requires { Valid r × Feasible r starts.now × (r.devices.count * r.horizon ≤ length out.old) }
    ensures { (result ≡ plan_energy r starts.now) × (out.new ≡ laid r.sleeps (plan_row r starts.now) r.devices.count ++ drop (r.devices.count * r.horizon) out.old) }
{
    let devices = r.devices;
    let sleeps = r.sleeps;
    let h = r.horizon as usize;
    let order = running_order(starts);
    let mut sum: u32 = 0;
    for k in 0..devices.count {
        let uses = uses_of(r, starts, order, k);
        sum += energy_of(r.round, devices.list[k], r.horizon, uses);
        let at = k * h;
        write_row(
            r.round,
            sleeps,
            devices.list[k],
            r.horizon,
            uses,
            &mut out[at..],
        );
    }
    sum
}
