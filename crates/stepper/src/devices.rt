// The devices of a recorder, step by step at feasible starts.
ghost use Rattle.std.specs.Prelude.{◌≡◌, ◌++◌, ◌*◌, ◌<◌, ◌≤◌, length, drop};
ghost use Rattle.base.specs.Lists.{up_to};
ghost use Rattle.base.specs.Sums.{sum};
ghost use Rattle.schedule.specs.Quantities.{Valid};
ghost use Rattle.schedule.specs.Listing.{Feasible};
ghost use Rattle.schedule.specs.inside.Ordering.{order_of};
ghost use Rattle.steps.specs.Stepping.{spent};
ghost use Rattle.steps.specs.inside.Running.{stepped_by};

use crate::ordering::order_of;
use base::JobNumber;
use schedule::{Recorder, running_order};
use steps::{Stepped, run};

// Device k over the round: its state at H, and the energy that it has spent.
fn run_device(r: Recorder, starts: &[u16], order: [JobNumber; 16], k: usize) -> Stepped
    requires { Valid r × Feasible r starts.now × (order ≡ order_of starts.now) × (k < r.devices.count) }
    ensures { (result ≡ stepped_by r starts.now k) × (result.energy ≤ 65535 * r.horizon) }
{
    let devices = r.devices;
    let d = devices.list[k];
    let o = order_of(r, starts, order, k);
    run(d, r.horizon, o)
}

// Every device over the round: writes what each spends into the lent list, keeps what follows, and returns the sum.
pub fn run_devices(r: Recorder, starts: &[u16], out: &mut [u32]) -> u32
    requires { Valid r × Feasible r starts.now × (r.devices.count ≤ length out.old) }
    ensures { (result ≡ sum r.devices.count (λ k. spent r k starts.now))
        × (out.new ≡ up_to (λ k. spent r k starts.now) r.devices.count ++ drop r.devices.count out.old) }
{
    let devices = r.devices;
    let order = running_order(starts);
    let mut total: u32 = 0;
    for k in 0..devices.count {
        let x = run_device(r, starts, order, k);
        let e = x.energy;
        out[k] = e;
        total += e;
    }
    total
}
