// A device along the jobs of a round.
ghost use Rattle.std.specs.Prelude.{◌≡◌, ◌+◌, ◌*◌, ◌<◌, ◌≤◌};
ghost use Rattle.device.specs.Row.{Sound};
ghost use Rattle.steps.specs.Stepping.{at_start, at_end, pass_over, ruled_to};
ghost use Rattle.steps.specs.inside.Running.{job_over, next_begin, next_use, stepped, Spaced};

use crate::rules::{end_state, start_state};
use crate::ticks::{after_ticks, energy_ticks};
use crate::{Order, State, Stepped};
use device::Device;

// The step of time: n ticks pass. What is spent with them has to fit (`energy_ticks` tells how much it is).
pub fn pass_fitting(d: Device, n: u16, x: Stepped) -> Stepped
    requires { Sound d × ((pass_over d n x).energy < 4294967296) }
    ensures { result ≡ pass_over d n x }
{
    Stepped {
        state: after_ticks(n, x.state),
        energy: x.energy + energy_ticks(d, n, x.state),
    }
}

// The same where 65,535 a tick would fit, which no power is above.
pub fn pass(d: Device, n: u16, x: Stepped) -> Stepped
    requires { Sound d × (x.energy + 65535 * n < 4294967296) }
    ensures { result ≡ pass_over d n x }
{
    pass_fitting(d, n, x)
}

// The step of a start: `this` job uses the device or not, the `next` uses it or not, and the pause between them is so long.
pub fn on_start(d: Device, this: bool, next: bool, pause: u16, x: Stepped) -> Stepped
    ensures { result ≡ ruled_to at_start d this next pause x }
{
    Stepped {
        state: start_state(d.shut, this, next, pause, x.state),
        ..x
    }
}

// The step of a completion.
pub fn on_end(d: Device, this: bool, next: bool, pause: u16, x: Stepped) -> Stepped
    ensures { result ≡ ruled_to at_end d this next pause x }
{
    Stepped {
        state: end_state(d.shut, this, next, pause, x.state),
        ..x
    }
}

// One job: the ticks before its start, its start, its ticks and its completion.
fn job_over(
    d: Device,
    gap: u16,
    run: u16,
    this: bool,
    next: bool,
    pause: u16,
    x: Stepped,
) -> Stepped
    requires { Sound d × (x.energy + 65535 * (gap + run) < 4294967296) }
    ensures { result ≡ job_over d gap run this next pause x }
{
    let waited = pass(d, gap, x);
    let begun = on_start(d, this, next, pause, waited);
    let ran = pass(d, run, begun);
    on_end(d, this, next, pause, ran)
}

// Where job j begins: at h where there is none.
fn next_begin(h: u16, o: Order, j: usize) -> u16
    requires { o.count ≤ 16 }
    ensures { result ≡ next_begin h o j }
{
    if j < o.count { o.begins[j] } else { h }
}

// Whether job j uses the device: not where there is none.
fn next_use(o: Order, j: usize) -> bool
    requires { o.count ≤ 16 }
    ensures { result ≡ next_use o j }
{
    j < o.count && o.uses[j]
}

// The device over h ticks.
pub fn run(d: Device, h: u16, o: Order) -> Stepped
    requires { Sound d × Spaced o h }
    ensures { (result ≡ stepped d h o) × (result.energy ≤ 65535 * h) }
{
    let mut x = Stepped {
        state: State::Working,
        energy: 0,
    };
    let mut at: u16 = 0;
    for i in 0..o.count {
        let begin = o.begins[i];
        let end = o.ends[i];
        let next = next_begin(h, o, i + 1);
        x = job_over(
            d,
            begin - at,
            end - begin,
            o.uses[i],
            next_use(o, i + 1),
            next - end,
            x,
        );
        at = end;
    }
    pass(d, h - at, x)
}
