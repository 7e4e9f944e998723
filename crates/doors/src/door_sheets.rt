// The doors to the sheets.
ghost use Rattle.doors.specs.Promises.{ImportDevicesDoor, ImportJobsDoor, ExportDevicesDoor, ExportJobsDoor, ExportPlanDoor};

use calls::{RESULT, tell};
use doorway::{SHUT, hand_starts, is_open};
use planner::told;
use sheet_export::{export_devices, export_jobs, export_plan};
use sheet_import::{import_devices, import_jobs};

pub fn door_import_devices(text: &[u8], out: &mut [u8], res: &mut [u8]) -> u8
    ensures { ImportDevicesDoor text.now out.old res.old result out.new res.new }
{
    if res.len() < RESULT {
        return SHUT;
    }
    tell(told(import_devices(text, out)), res)
}

pub fn door_export_devices(catalogue: &[u8], out: &mut [u8], res: &mut [u8]) -> u8
    ensures { ExportDevicesDoor catalogue.now out.old res.old result out.new res.new }
{
    if res.len() < RESULT {
        return SHUT;
    }
    tell(told(export_devices(catalogue, out)), res)
}

pub fn door_import_jobs(text: &[u8], out: &mut [u8], res: &mut [u8]) -> u8
    ensures { ImportJobsDoor text.now out.old res.old result out.new res.new }
{
    if res.len() < RESULT {
        return SHUT;
    }
    tell(told(import_jobs(text, out)), res)
}

pub fn door_export_jobs(records: &[u8], out: &mut [u8], res: &mut [u8]) -> u8
    ensures { ExportJobsDoor records.now out.old res.old result out.new res.new }
{
    if res.len() < RESULT {
        return SHUT;
    }
    tell(told(export_jobs(records, out)), res)
}

pub fn door_export_plan(file: &[u8], starts: &[u8], out: &mut [u8], res: &mut [u8]) -> u8
    ensures { ExportPlanDoor file.now starts.now out.old res.old result out.new res.new }
{
    if !is_open(starts.len(), res.len()) {
        return SHUT;
    }
    let mut own = [0u16; 17];
    let n = hand_starts(starts, &mut own);
    tell(told(export_plan(file, &own[..n], out)), res)
}
