// The sheet of a plan. It asks nothing of its caller: any file and start times get an answer. sheet/specs/Promises.antt says the complete outcome.
ghost use Rattle.std.specs.Prelude.{◌≡◌, map, ℕ, ◌≤◌, pos, nat_abs, length, get_or};
ghost use Rattle.text.specs.inside.Putting.{Put};
ghost use Rattle.planner.specs.Answers.{answered};
ghost use Rattle.sheet.specs.Sheets.{plan_text};
ghost use Rattle.sheet.specs.Promises.{ExportedPlan};
ghost use Rattle.sheet_export.specs.inside.Margins.{Spare};

use planner::{Figures, Refusal, margins, verdict};
use sheet::give;
use text::put_line;

// A margin of feasible starts.
fn spare_of(margin: i32) -> u16
    requires { Spare margin }
    ensures { result ≡ nat_abs margin }
{
    margin as u16
}

// A line for each job: its number, its start and its margin.
fn put_plan_lines(out: &mut [u8], starts: &[u16], margins: &[i32]) -> usize
    requires { (length starts.now ≤ 16) × (length margins.now ≡ 16) × (length out.old ≡ 304) × ((j : ℕ) → Spare (get_or margins.now j (pos 0))) }
    ensures { (result ≤ 304) × Put (plan_text starts.now (map nat_abs margins.now)) 0 out.old result out.new }
{
    let mut at = 0;
    for (j, start) in starts.iter().enumerate() {
        at = put_line(out, at, &[j as u16, *start, spare_of(margins[j])]);
    }
    at
}

// The sheet of a plan, for start times that the planner's verdict accepts: so their margins are given.
pub fn export_plan(file: &[u8], starts: &[u16], out: &mut [u8]) -> Result<Figures, Refusal>
    ensures { ExportedPlan file.now starts.now out.old (answered result) out.new }
{
    let judged = verdict(file, starts)?;
    let mut room = [0i32; 16];
    let _ = margins(file, starts, &mut room);
    let mut own = [0u8; 304];
    let size = put_plan_lines(&mut own, starts, &room);
    give(&own[..size], judged.horizon, size, out)
}
