// Ticks in which nothing happens: the state after them, and their energy.
ghost use Rattle.std.specs.Prelude.{◌≡◌, ◌+◌, ◌-◌, ◌*◌, min};
ghost use Rattle.device.specs.Row.{Sound, energy};
ghost use Rattle.steps.specs.Stepping.{alone, later};

use crate::State;
use device::Device;

// The state after n ticks.
pub fn after_ticks(n: u16, st: State) -> State
    ensures { result ≡ later n st }
{
    if n == 0 {
        return st;
    }
    match st {
        State::Working | State::Asleep => st,
        State::Down(left) if left as u16 <= n => State::Asleep,
        State::Down(left) => State::Down((left as u16 - n) as u8),
        State::Up(left) if left as u16 <= n => State::Working,
        State::Up(left) => State::Up((left as u16 - n) as u8),
    }
}

// The energy of n ticks of which the first `left` move at p0 and the others draw p.
fn moving_energy(n: u16, left: u8, p0: u16, p: u16) -> u32
    ensures { result ≡ p0 * min left n + p * (n - left) }
{
    let moved = n.min(left as u16);
    p0 as u32 * moved as u32 + p as u32 * (n - moved) as u32
}

// The energy of n ticks.
pub fn energy_ticks(d: Device, n: u16, st: State) -> u32
    requires { Sound d }
    ensures { result ≡ energy d (alone n st) }
{
    let asleep = d.powers[0];
    match st {
        State::Working => d.pw as u32 * n as u32,
        State::Asleep => asleep as u32 * n as u32,
        State::Down(left) => moving_energy(n, left, d.pd, asleep),
        State::Up(left) => moving_energy(n, left, d.pu, d.pw),
    }
}
