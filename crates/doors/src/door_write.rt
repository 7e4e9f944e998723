// The door to the writer.
ghost use Rattle.doors.specs.Promises.{WriteDoor};

use calls::{RESULT, tell};
use doorway::SHUT;
use planner::{told, write};
use table_bytes::{is_tables, tables_from};

pub fn door_write(given: &[u8], out: &mut [u8], res: &mut [u8]) -> u8
    ensures { WriteDoor given.now out.old res.old result out.new res.new }
{
    if res.len() < RESULT || !is_tables(given) {
        return SHUT;
    }
    tell(told(write(tables_from(given), out)), res)
}
