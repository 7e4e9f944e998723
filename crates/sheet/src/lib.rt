// Sheets: comma-separated text in and out, for purchasing. Here is what the lines of a sheet hold, and the giving of what was made; specs/Promises.antt says the
// complete outcome of each of the five operations, which stand in sheet_import and sheet_export.
#![tactic(auto)]

ghost use Rattle.std.specs.Prelude.{◌<◌};
ghost use Rattle.planner.specs.Answers.{answered};
ghost use Rattle.sheet.specs.Promises.{Filled};

use base::{Reason, copy};
use planner::{Figures, Refusal};

// What the lines of a sheet hold.
#[derive(Clone, Copy)]
pub enum SheetKind {
    Devices,
    Jobs,
}

// Gives what was made, if the lent memory has room for it.
pub fn give(made: &[u8], horizon: u16, count: usize, out: &mut [u8]) -> Result<Figures, Refusal>
    requires { count < 4096 }
    ensures { Filled 0 horizon count made.now out.old (answered result) out.new }
{
    if out.len() < made.len() {
        return Err(Refusal::from(Reason::NoRoom));
    }
    copy(made, out);
    Ok(Figures {
        horizon,
        energy: 0,
        count: count as u32,
    })
}
