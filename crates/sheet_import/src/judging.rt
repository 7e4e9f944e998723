// What refuses a sheet: the first line at fault, and then the line that its table is refused for.
ghost use Rattle.std.specs.Prelude.{◌≡◌, map, ◌*◌, length, OnOk};
ghost use Rattle.base.specs.Bytes.{in_row};
ghost use Rattle.text.specs.Grammar.{lines_of};
ghost use Rattle.text.specs.inside.Putting.{Put};
ghost use Rattle.sheet_import.specs.LineFaults.{DevicesFault, JobsFault, told};
ghost use Rattle.sheet_import.specs.inside.Judging.{DevicesJudged, fault_at};
ghost use Rattle.sheet_import.specs.inside.RowBytes.{row_bytes};

use crate::LineFault;
use crate::lines::lines_fault;
use crate::parts::unfit_line;
use crate::reading::put_rows;
use base::Reason;
use catalogue::repeated_at;
use sheet::SheetKind;
use text::count_lines;

fn fault_at(reason: Reason, place: Option<usize>) -> Result<(), LineFault>
    ensures { result ≡ fault_at reason place }
{
    match place {
        Some(line) => Err(LineFault { reason, line }),
        None => Ok(()),
    }
}

// 27, 28 or 29 by its lines, and then 21.
fn judge_devices(text: &[u8]) -> Result<(), LineFault>
    ensures { DevicesJudged text.now (told result) }
{
    lines_fault(text, SheetKind::Devices)?;
    fault_at(Reason::PartNumber, unfit_line(text, count_lines(text)))
}

// Then 22, of the catalogue's own bytes, which are put on the way: 15 a line.
pub(crate) fn put_devices(text: &[u8], own: &mut [u8]) -> Result<(), LineFault>
    requires { length own.old ≡ 960 }
    ensures fault { DevicesFault text.now (told result) }
    ensures bytes { OnOk result (Put (in_row (map (row_bytes SheetKind.Devices) (lines_of text.now))) 0 own.old (length (lines_of text.now) * 15) own.new) }
{
    judge_devices(text)?;
    let lines = count_lines(text);
    let size = lines * 15;
    put_rows(own, text, lines, SheetKind::Devices);
    fault_at(Reason::PartTwice, repeated_at(&own[..size]))
}

// The line for which a sheet of devices is refused.
pub fn devices_fault(text: &[u8]) -> Result<(), LineFault>
    ensures { DevicesFault text.now (told result) }
{
    let mut own = [0u8; 960];
    put_devices(text, &mut own)
}

// The line for which a sheet of jobs is refused: 27, 28 or 29 by its lines, and then 12.
pub fn jobs_fault(text: &[u8]) -> Result<(), LineFault>
    ensures { JobsFault text.now (told result) }
{
    lines_fault(text, SheetKind::Jobs)?;
    if count_lines(text) > 16 {
        return Err(LineFault {
            reason: Reason::ManyJobs,
            line: 16,
        });
    }
    Ok(())
}
