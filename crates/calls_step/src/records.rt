// A device and its record as bytes.
ghost use Rattle.std.specs.Prelude.{◌≡◌, length};
ghost use Rattle.base.specs.Reasons.{number_in};
ghost use Rattle.calls_step.specs.StepCall.{device_in, state_named, state_bytes, record_in, record_bytes, powers_fault, code_of, code_in, fault_of};
ghost use Rattle.calls_step.specs.declared.records.NoStep.TheVariants.{Refused};

use base::{Reason, pair_at};
use device::Device;
use request::device_of;
use steps::{State, Stepped};
use tables::first_at;

// A device has as many bytes as in a file of the first kind; a record has its state, the ticks left of a move, and four for the energy.
const DEVICE: usize = 7;

const RECORD: usize = 6;

// Why nothing is stepped: the bytes are no device or no record, or the device or its energy is refused.
#[derive(Clone, Copy)]
pub enum NoStep {
    Neither,
    Refused(Reason),
}

impl From<Reason> for NoStep {
    ghost from_gives = { λ r e. e ≡ Refused r };

    fn from(reason: Reason) -> NoStep {
        NoStep::Refused(reason)
    }
}

impl NoStep {
    // 255 is what a door that is shut gives too.
    pub fn code(self) -> u8
        ensures { result ≡ code_of self }
    {
        match self {
            NoStep::Neither => 255,
            NoStep::Refused(reason) => reason.number(),
        }
    }
}

// What refuses the powers of a device: Ps < P0 < Pw does not hold.
fn powers_fault(device: &[u8]) -> Result<(), Reason>
    requires { length device.now ≡ 7 }
    ensures { number_in result ≡ powers_fault device.now }
{
    let moving = pair_at(device, 5);
    if moving <= pair_at(device, 3) || pair_at(device, 1) <= moving {
        return Err(Reason::UnlikePowers);
    }
    Ok(())
}

// What refuses the bytes of a device and of its record.
pub fn fault_of(device: &[u8], bytes: &[u8]) -> Result<(), NoStep>
    ensures { code_in result ≡ fault_of device.now bytes.now }
{
    if device.len() != DEVICE || bytes.len() != RECORD || 3 < bytes[0] {
        return Err(NoStep::Neither);
    }
    if device[0] == 0 {
        return Err(NoStep::Refused(Reason::NoMoveTime));
    }
    powers_fault(device)?;
    Ok(())
}

pub fn device_in(device: &[u8]) -> Device
    requires { length device.now ≡ 7 }
    ensures { result ≡ device_in device.now }
{
    device_of(first_at(device, 0))
}

fn state_named(byte: u8, left: u8) -> State
    ensures { result ≡ state_named byte left }
{
    match byte {
        0 => State::Working,
        1 => State::Asleep,
        2 => State::Down(left),
        _ => State::Up(left),
    }
}

pub fn record_in(bytes: &[u8]) -> Stepped
    requires { length bytes.now ≡ 6 }
    ensures { result ≡ record_in bytes.now }
{
    let state = state_named(bytes[0], bytes[1]);
    let energy = pair_at(bytes, 2) as u32 * 65536 + pair_at(bytes, 4) as u32;
    Stepped { state, energy }
}

// What a device does, and the ticks left of a move.
fn state_bytes(st: State) -> [u8; 2]
    ensures { result ≡ state_bytes st }
{
    match st {
        State::Working => [0, 0],
        State::Asleep => [1, 0],
        State::Down(left) => [2, left],
        State::Up(left) => [3, left],
    }
}

pub fn put_record(x: Stepped, bytes: &mut [u8])
    requires { length bytes.old ≡ 6 }
    ensures { bytes.new ≡ record_bytes x }
{
    let [does, left] = state_bytes(x.state);
    let [a, b, c, d] = x.energy.to_be_bytes();
    bytes.copy_from_slice(&[does, left, a, b, c, d]);
}
