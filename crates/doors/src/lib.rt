// Doors: the other operations of the library with bytes in and out, for the command line and the tests. A door answers 255, and does nothing, for an odd list of
// start times, tables of another length or kind, or a result buffer under 11 bytes; else it tells every answer, a refusal too. include/floebucket.h declares
// them; specs/Promises.antt says for each the complete outcome.
#![tactic(auto)]

pub mod door_build; // door_build.rt: a request from part numbers
pub mod door_margins; // door_margins.rt: margins
pub mod door_mend; // door_mend.rt: mending
pub mod door_possible; // door_possible.rt: whether there is any plan
pub mod door_sheets; // door_sheets.rt: sheets of devices, jobs and plans, in and out
pub mod door_step; // door_step.rt: stepping
pub mod door_tables; // door_tables.rt: the tables of a file
pub mod door_verdict; // door_verdict.rt: the verdict
pub mod door_write; // door_write.rt: the writer
