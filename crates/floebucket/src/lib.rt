// The functions for C. Each calls the function of that name in the library, and promises what that promises: a library's own functions are not seen from C.
// Every buffer is a pointer and a length. include/floebucket.h declares them all.
#![tactic(auto)]

ghost use Rattle.calls.specs.Calls.{CheckCalled, RowsCalled, SearchCalled, SearchInCalled, SizesCalled};
ghost use Rattle.calls_fault.specs.FaultCall.{DevicesFaultDoor, FaultCalled, FaultDoor, JobsFaultDoor, OrderFaultDoor};
ghost use Rattle.calls_first.specs.FirstCall.{FirstCalled};
ghost use Rattle.calls_least.specs.LeastCall.{LeastCalled, LeastInCalled};
ghost use Rattle.calls_step.specs.StepCall.{EndCalled, PassCalled, StartCalled};
ghost use Rattle.doors.specs.Promises.{BuildDoor, ExportDevicesDoor, ExportJobsDoor, ExportPlanDoor, ImportDevicesDoor, ImportJobsDoor, MarginsDoor, MendDoor, PossibleDoor, StepDoor, TablesDoor, VerdictDoor, WriteDoor};
ghost use Rattle.mend.specs.Promises.{lending};

// ---- The file, the sizes, the search and the rows.

// Whether the file is accepted, and its horizon.
#[unsafe(no_mangle)]
pub extern "C" fn floe_check(file: &[u8], res: &mut [u8]) -> u8
    ensures { CheckCalled file.now res.old result res.new }
{
    calls::floe_check(file, res)
}

// How many devices, tasks and jobs the request has, a byte each: of jobs all that are planned, those that tasks release too.
#[unsafe(no_mangle)]
pub extern "C" fn floe_sizes(file: &[u8], sizes: &mut [u8], res: &mut [u8]) -> u8
    ensures { SizesCalled file.now sizes.old res.old result sizes.new res.new }
{
    calls::floe_sizes(file, sizes, res)
}

// The start times of the first of the least-energy schedules that meet all deadlines, if the budget covers the vertices of the search.
#[unsafe(no_mangle)]
pub extern "C" fn floe_search(file: &[u8], budget: u32, starts: &mut [u8], res: &mut [u8]) -> u8
    ensures { SearchCalled file.now budget starts.old res.old result starts.new res.new }
{
    calls::floe_search(file, budget, starts, res)
}

// The same with a memory that the caller lends, of any length and whatever it holds. It is written to only where more than 256 vertices are counted.
#[unsafe(no_mangle)]
pub extern "C" fn floe_search_in(
    file: &[u8],
    budget: u32,
    memory: &mut [u64],
    starts: &mut [u8],
    res: &mut [u8],
) -> u8
    ensures called { SearchCalled file.now budget starts.old res.old result starts.new res.new }
    ensures lent { SearchInCalled file.now budget memory.old starts.old res.old result memory.new starts.new res.new }
{
    calls::floe_search_in(file, budget, memory, starts, res)
}

// The row of every device, the legal row of least energy, for feasible start times.
#[unsafe(no_mangle)]
pub extern "C" fn floe_rows(file: &[u8], starts: &[u8], out: &mut [u8], res: &mut [u8]) -> u8
    ensures { RowsCalled file.now starts.now out.old res.old result out.new res.new }
{
    calls::floe_rows(file, starts, out, res)
}

// ---- The first schedule, for requests without devices.

// The start times of the first of all schedules that meet all deadlines, if there is one.
#[unsafe(no_mangle)]
pub extern "C" fn floe_first(file: &[u8], starts: &mut [u8], res: &mut [u8]) -> u8
    ensures { FirstCalled file.now starts.old res.old result starts.new res.new }
{
    calls_first::floe_first(file, starts, res)
}

// ---- The plan of least energy.

// The start times of the first of the least-energy schedules that meet all deadlines, worked out with the lent memory.
#[unsafe(no_mangle)]
pub extern "C" fn floe_least(
    file: &[u8],
    budget: u32,
    memory: &mut [u64],
    starts: &mut [u8],
    res: &mut [u8],
) -> u8
    ensures called { LeastCalled file.now budget starts.old res.old result starts.new res.new }
    ensures lent { LeastInCalled file.now budget memory.old starts.old res.old result memory.new starts.new res.new }
{
    calls_least::floe_least(file, budget, memory, starts, res)
}

// ---- What is wrong with a file, and where.

// Where a file is refused: its first place at fault.
#[unsafe(no_mangle)]
pub extern "C" fn floe_fault(file: &[u8], res: &mut [u8]) -> u8
    ensures { FaultCalled file.now res.old result res.new }
{
    calls_fault::floe_fault(file, res)
}

// Where tables are refused, in the file that they make. 255: they are no tables, or the result buffer has no room.
#[unsafe(no_mangle)]
pub extern "C" fn door_fault(tables: &[u8], res: &mut [u8]) -> u8
    ensures { FaultDoor tables.now res.old result res.new }
{
    calls_fault::door_fault(tables, res)
}

// The part, or the wanted number, for which an order is refused. 255: the result buffer has no room.
#[unsafe(no_mangle)]
pub extern "C" fn door_order_fault(catalogue: &[u8], wanted: &[u8], res: &mut [u8]) -> u8
    ensures { OrderFaultDoor catalogue.now wanted.now res.old result res.new }
{
    calls_fault::door_order_fault(catalogue, wanted, res)
}

// The line for which a sheet of devices is refused, and that of a sheet of jobs. 255: the result buffer has no room.
#[unsafe(no_mangle)]
pub extern "C" fn door_devices_fault(text: &[u8], res: &mut [u8]) -> u8
    ensures { DevicesFaultDoor text.now res.old result res.new }
{
    calls_fault::door_devices_fault(text, res)
}

#[unsafe(no_mangle)]
pub extern "C" fn door_jobs_fault(text: &[u8], res: &mut [u8]) -> u8
    ensures { JobsFaultDoor text.now res.old result res.new }
{
    calls_fault::door_jobs_fault(text, res)
}

// ---- One step of one device.

// A job starts: `this` job uses the device or not, the `next` one uses it or not, and so many ticks after this one's end it starts.
#[unsafe(no_mangle)]
pub extern "C" fn floe_step_start(
    device: &[u8],
    this: u8,
    next: u8,
    pause: u16,
    bytes: &mut [u8],
) -> u8
    ensures { StartCalled device.now this next pause bytes.old result bytes.new }
{
    calls_step::floe_step_start(device, this, next, pause, bytes)
}

// A job is completed.
#[unsafe(no_mangle)]
pub extern "C" fn floe_step_end(
    device: &[u8],
    this: u8,
    next: u8,
    pause: u16,
    bytes: &mut [u8],
) -> u8
    ensures { EndCalled device.now this next pause bytes.old result bytes.new }
{
    calls_step::floe_step_end(device, this, next, pause, bytes)
}

// So many ticks pass in which no job starts and none is completed.
#[unsafe(no_mangle)]
pub extern "C" fn floe_step_pass(device: &[u8], ticks: u16, bytes: &mut [u8]) -> u8
    ensures { PassCalled device.now ticks bytes.old result bytes.new }
{
    calls_step::floe_step_pass(device, ticks, bytes)
}

// ---- The doors: every other operation, and tables as bytes.

#[unsafe(no_mangle)]
pub extern "C" fn door_build(
    parts: &[u8],
    wanted: &[u8],
    given: &[u8],
    out: &mut [u8],
    res: &mut [u8],
) -> u8
    ensures { BuildDoor parts.now wanted.now given.now out.old res.old result out.new res.new }
{
    doors::door_build::door_build(parts, wanted, given, out, res)
}

#[unsafe(no_mangle)]
pub extern "C" fn door_margins(file: &[u8], starts: &[u8], out: &mut [u8], res: &mut [u8]) -> u8
    ensures { MarginsDoor file.now starts.now out.old res.old result out.new res.new }
{
    doors::door_margins::door_margins(file, starts, out, res)
}

#[unsafe(no_mangle)]
pub extern "C" fn door_mend(
    file: &[u8],
    starts: &[u8],
    out: &mut [u8],
    moved: &mut [u8],
    res: &mut [u8],
) -> u8
    ensures { MendDoor file.now starts.now (lending out.old moved.old) res.old result (lending out.new moved.new) res.new }
{
    doors::door_mend::door_mend(file, starts, out, moved, res)
}

#[unsafe(no_mangle)]
pub extern "C" fn door_possible(file: &[u8], budget: u32, starts: &mut [u8], res: &mut [u8]) -> u8
    ensures { PossibleDoor file.now budget starts.old res.old result starts.new res.new }
{
    doors::door_possible::door_possible(file, budget, starts, res)
}

#[unsafe(no_mangle)]
pub extern "C" fn door_import_devices(text: &[u8], out: &mut [u8], res: &mut [u8]) -> u8
    ensures { ImportDevicesDoor text.now out.old res.old result out.new res.new }
{
    doors::door_sheets::door_import_devices(text, out, res)
}

#[unsafe(no_mangle)]
pub extern "C" fn door_export_devices(catalogue: &[u8], out: &mut [u8], res: &mut [u8]) -> u8
    ensures { ExportDevicesDoor catalogue.now out.old res.old result out.new res.new }
{
    doors::door_sheets::door_export_devices(catalogue, out, res)
}

#[unsafe(no_mangle)]
pub extern "C" fn door_import_jobs(text: &[u8], out: &mut [u8], res: &mut [u8]) -> u8
    ensures { ImportJobsDoor text.now out.old res.old result out.new res.new }
{
    doors::door_sheets::door_import_jobs(text, out, res)
}

#[unsafe(no_mangle)]
pub extern "C" fn door_export_jobs(records: &[u8], out: &mut [u8], res: &mut [u8]) -> u8
    ensures { ExportJobsDoor records.now out.old res.old result out.new res.new }
{
    doors::door_sheets::door_export_jobs(records, out, res)
}

#[unsafe(no_mangle)]
pub extern "C" fn door_export_plan(file: &[u8], starts: &[u8], out: &mut [u8], res: &mut [u8]) -> u8
    ensures { ExportPlanDoor file.now starts.now out.old res.old result out.new res.new }
{
    doors::door_sheets::door_export_plan(file, starts, out, res)
}

#[unsafe(no_mangle)]
pub extern "C" fn door_step(file: &[u8], starts: &[u8], out: &mut [u8], res: &mut [u8]) -> u8
    ensures { StepDoor file.now starts.now out.old res.old result out.new res.new }
{
    doors::door_step::door_step(file, starts, out, res)
}

#[unsafe(no_mangle)]
pub extern "C" fn door_tables(file: &[u8], out: &mut [u8], res: &mut [u8]) -> u8
    ensures { TablesDoor file.now out.old res.old result out.new res.new }
{
    doors::door_tables::door_tables(file, out, res)
}

#[unsafe(no_mangle)]
pub extern "C" fn door_verdict(file: &[u8], starts: &[u8], res: &mut [u8]) -> u8
    ensures { VerdictDoor file.now starts.now res.old result res.new }
{
    doors::door_verdict::door_verdict(file, starts, res)
}

#[unsafe(no_mangle)]
pub extern "C" fn door_write(given: &[u8], out: &mut [u8], res: &mut [u8]) -> u8
    ensures { WriteDoor given.now out.old res.old result out.new res.new }
{
    doors::door_write::door_write(given, out, res)
}
