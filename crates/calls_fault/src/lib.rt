// The function by which a C program asks where a file is refused: `fault_of`, with bytes in and out as the functions of crate calls have them; and the doors to
// `fault_of_tables`, and to the places at fault of orders and sheets. include/floebucket.h declares them; specs/FaultCall.antt says the complete outcome of each.
#![tactic(auto)]

ghost use Rattle.std.specs.Prelude.{◌≡◌, ◌++◌, ◌≤◌, length, drop};
ghost use Rattle.calls_fault.specs.FaultCall.{code_in, record_in, eighteen, FaultCalled, FaultDoor, OrderFaultDoor, DevicesFaultDoor, JobsFaultDoor};
ghost use Rattle.calls.specs.Bytes.{big};
ghost use Rattle.catalogue.specs.Faults.{told as part_told};
ghost use Rattle.faults.specs.Places.{judged};
ghost use Rattle.sheet_import.specs.LineFaults.{told as line_told};

use calls::{cramped, put};
use catalogue::{PartFault, order_fault};
use faults::{Place, PlaceFault, fault_of, fault_of_tables};
use sheet_import::{LineFault, devices_fault, jobs_fault};
use table_bytes::{is_tables, tables_from};

pub const PLACE: usize = 18;

// What a place takes that is counted: a part of a catalogue, or a line of a sheet.
pub const COUNTED: usize = 8;

// What a place is, and the number of its record: 0 and 0 where there is none.
fn code_in(place: Option<Place>) -> u64
    ensures { result ≡ code_in place }
{
    match place {
        None => 0,
        Some(place) => place.code() as u64,
    }
}

fn record_in(place: Option<Place>) -> u64
    ensures { result ≡ record_in place }
{
    match place {
        None => 0,
        Some(place) => place.record() as u64,
    }
}

// Puts a place into the buffer, with its bytes, and returns the number that it is refused for.
pub fn tell_place(number: u8, place: Option<Place>, from: usize, to: usize, res: &mut [u8]) -> u8
    requires { 18 ≤ length res.old }
    ensures { (result ≡ number) × (res.new ≡ eighteen (record { number = number; place = place; from = from; to = to }) ++ drop 18 res.old) }
{
    put(&mut res[..1], code_in(place));
    put(&mut res[1..2], record_in(place));
    put(&mut res[2..10], from as u64);
    put(&mut res[10..18], to as u64);
    number
}

// The same of a place at fault: zeros where nothing is.
fn tell_fault(fault: Result<(), PlaceFault>, res: &mut [u8]) -> u8
    requires { 18 ≤ length res.old }
    ensures { (result ≡ (judged fault).number) × (res.new ≡ eighteen (judged fault) ++ drop 18 res.old) }
{
    match fault {
        Ok(()) => tell_place(0, None, 0, 0, res),
        Err(at) => tell_place(at.reason.number(), Some(at.place), at.from, at.to, res),
    }
}

// Where a file is refused: its first place at fault.
pub fn floe_fault(file: &[u8], res: &mut [u8]) -> u8
    ensures { FaultCalled file.now res.old result res.new }
{
    if res.len() < PLACE {
        return cramped(file);
    }
    tell_fault(fault_of(file), res)
}

// Where tables are refused, in the file that they make. 255: they are no tables, or the result buffer has no room.
pub fn door_fault(tables: &[u8], res: &mut [u8]) -> u8
    ensures { FaultDoor tables.now res.old result res.new }
{
    if res.len() < PLACE || !is_tables(tables) {
        return 255;
    }
    tell_fault(fault_of_tables(tables_from(tables)), res)
}

// Puts a place that is counted into the buffer, and returns its number.
fn tell_counted(number: u8, place: usize, res: &mut [u8]) -> u8
    requires { 8 ≤ length res.old }
    ensures { (result ≡ number) × (res.new ≡ big 8 place ++ drop 8 res.old) }
{
    put(&mut res[..8], place as u64);
    number
}

// The same of a part or a wanted number, and of a line: 0 and 0 where none is at fault.
fn tell_part(fault: Result<(), PartFault>, res: &mut [u8]) -> u8
    requires { 8 ≤ length res.old }
    ensures { (result ≡ (part_told fault).number) × (res.new ≡ big 8 (part_told fault).part ++ drop 8 res.old) }
{
    match fault {
        Ok(()) => tell_counted(0, 0, res),
        Err(at) => tell_counted(at.reason.number(), at.part, res),
    }
}

fn tell_line(fault: Result<(), LineFault>, res: &mut [u8]) -> u8
    requires { 8 ≤ length res.old }
    ensures { (result ≡ (line_told fault).number) × (res.new ≡ big 8 (line_told fault).line ++ drop 8 res.old) }
{
    match fault {
        Ok(()) => tell_counted(0, 0, res),
        Err(at) => tell_counted(at.reason.number(), at.line, res),
    }
}

// The part, or the wanted number, for which an order is refused. 255: the result buffer has no room.
pub fn door_order_fault(catalogue: &[u8], wanted: &[u8], res: &mut [u8]) -> u8
    ensures { OrderFaultDoor catalogue.now wanted.now res.old result res.new }
{
    if res.len() < COUNTED {
        return 255;
    }
    tell_part(order_fault(catalogue, wanted), res)
}

// The line for which a sheet of devices is refused, and that of a sheet of jobs. 255: the result buffer has no room.
pub fn door_devices_fault(text: &[u8], res: &mut [u8]) -> u8
    ensures { DevicesFaultDoor text.now res.old result res.new }
{
    if res.len() < COUNTED {
        return 255;
    }
    tell_line(devices_fault(text), res)
}

pub fn door_jobs_fault(text: &[u8], res: &mut [u8]) -> u8
    ensures { JobsFaultDoor text.now res.old result res.new }
{
    if res.len() < COUNTED {
        return 255;
    }
    tell_line(jobs_fault(text), res)
}
