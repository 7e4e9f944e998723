// The door to building a request from part numbers.
ghost use Rattle.std.specs.Prelude.{◌≤◌, length};
ghost use Rattle.table_bytes.specs.TableBytes.{AreTables};
ghost use Rattle.doorway.specs.Doors.{Decides};
ghost use Rattle.doors.specs.Promises.{Deviceless, BuildDoor};

use base::pair_at;
use calls::{RESULT, tell};
use catalogue::build;
use doorway::SHUT;
use planner::told;
use table_bytes::{is_tables, tables_from};

// The tables that are given are of the first kind and have no devices: these are looked up.
fn opens_to(given: &[u8], res: usize) -> bool
    ensures { Decides result (AreTables given.now × Deviceless given.now × (11 ≤ res)) }
{
    if res < RESULT || !is_tables(given) {
        return false;
    }
    given[0] == 1 && pair_at(given, 3) == 0
}

pub fn door_build(parts: &[u8], wanted: &[u8], given: &[u8], out: &mut [u8], res: &mut [u8]) -> u8
    ensures { BuildDoor parts.now wanted.now given.now out.old res.old result out.new res.new }
{
    if !opens_to(given, res.len()) {
        return SHUT;
    }
    let t = tables_from(given);
    let built = build(parts, wanted, t.horizon, t.tasks, t.jobs, out);
    tell(told(built), res)
}
