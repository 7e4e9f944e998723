// Sheets of devices, of jobs and of plans, to text. No operation asks anything of its caller: any bytes of any length get an answer. sheet/specs/Promises.antt says
// for each the complete outcome.
#![tactic(auto)]

ghost use Rattle.planner.specs.Answers.{answered};
ghost use Rattle.sheet.specs.Promises.{ExportedDevices, ExportedJobs};

use crate::printing::{put_job_lines, put_part_lines};
use base::Reason;
use catalogue::{is_repeated, is_unfit};
use planner::{Figures, Refusal};
use sheet::give;

mod plans; // plans.rt: the sheet of a plan
mod printing; // printing.rt: tables as text

pub use crate::plans::export_plan;

// The sheet of a catalogue.
pub fn export_devices(catalogue: &[u8], out: &mut [u8]) -> Result<Figures, Refusal>
    ensures { ExportedDevices catalogue.now out.old (answered result) out.new }
{
    if is_unfit(catalogue) {
        return Err(Refusal::from(Reason::PartNumber));
    }
    if is_repeated(catalogue) {
        return Err(Refusal::from(Reason::PartTwice));
    }
    let mut own = [0u8; 2304];
    let size = put_part_lines(&mut own, catalogue);
    give(&own[..size], 0, size, out)
}

// The sheet of job records, 7 bytes each.
pub fn export_jobs(records: &[u8], out: &mut [u8]) -> Result<Figures, Refusal>
    ensures { ExportedJobs records.now out.old (answered result) out.new }
{
    let n = records.len();
    if 112 < n {
        return Err(Refusal::from(Reason::ManyJobs));
    }
    if n % 7 != 0 {
        return Err(Refusal::from(Reason::CutShort));
    }
    let mut own = [0u8; 400];
    let size = put_job_lines(&mut own, records);
    give(&own[..size], 0, size, out)
}
