// The functions by which a C program steps a device through a round by itself: at a start, at a completion, and over the ticks between. They ask nothing: bytes that
// are no device or no record get a number. include/floebucket.h declares them; specs/StepCall.antt says for each the complete outcome.
#![tactic(auto)]

ghost use Rattle.std.specs.Prelude.{◌≡◌};
ghost use Rattle.calls_step.specs.StepCall.{code_in, StartCalled, EndCalled, PassCalled};

use crate::records::{NoStep, device_in, fault_of, put_record, record_in};
use base::Reason;
use steps::{energy_ticks, on_end, on_start, pass_fitting};

mod records; // records.rt: a device and its record as bytes

// What a step returns to C.
fn code(done: Result<(), NoStep>) -> u8
    ensures { result ≡ code_in done }
{
    match done {
        Ok(()) => 0,
        Err(e) => e.code(),
    }
}

// A job starts: `this` job uses the device or not, the `next` one uses it or not, and so many ticks after this one's end it starts.
pub fn floe_step_start(device: &[u8], this: u8, next: u8, pause: u16, bytes: &mut [u8]) -> u8
    ensures { StartCalled device.now this next pause bytes.old result bytes.new }
{
    code(start(device, this, next, pause, bytes))
}

fn start(device: &[u8], this: u8, next: u8, pause: u16, bytes: &mut [u8]) -> Result<(), NoStep>
    ensures { StartCalled device.now this next pause bytes.old (code_in result) bytes.new }
{
    fault_of(device, bytes)?;
    let x = record_in(bytes);
    put_record(
        on_start(device_in(device), 0 < this, 0 < next, pause, x),
        bytes,
    );
    Ok(())
}

// A job is completed.
pub fn floe_step_end(device: &[u8], this: u8, next: u8, pause: u16, bytes: &mut [u8]) -> u8
    ensures { EndCalled device.now this next pause bytes.old result bytes.new }
{
    code(end(device, this, next, pause, bytes))
}

fn end(device: &[u8], this: u8, next: u8, pause: u16, bytes: &mut [u8]) -> Result<(), NoStep>
    ensures { EndCalled device.now this next pause bytes.old (code_in result) bytes.new }
{
    fault_of(device, bytes)?;
    let x = record_in(bytes);
    put_record(
        on_end(device_in(device), 0 < this, 0 < next, pause, x),
        bytes,
    );
    Ok(())
}

// So many ticks pass in which no job starts and none is completed.
pub fn floe_step_pass(device: &[u8], ticks: u16, bytes: &mut [u8]) -> u8
    ensures { PassCalled device.now ticks bytes.old result bytes.new }
{
    code(pass(device, ticks, bytes))
}

fn pass(device: &[u8], ticks: u16, bytes: &mut [u8]) -> Result<(), NoStep>
    ensures { PassCalled device.now ticks bytes.old (code_in result) bytes.new }
{
    fault_of(device, bytes)?;
    let d = device_in(device);
    let x = record_in(bytes);
    if u32::MAX - x.energy < energy_ticks(d, ticks, x.state) {
        return Err(NoStep::Refused(Reason::NoRoom));
    }
    put_record(pass_fitting(d, ticks, x), bytes);
    Ok(())
}
