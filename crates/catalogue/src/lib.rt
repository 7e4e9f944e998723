// The catalogue by part number, above the planner: a request is built from part numbers alone, the other sections being given. What the planner is seen by is
// what it states of its writer, so that of the file's rules only the seven bytes of a device record (rule 11) stand here. `build` and `order_fault` ask nothing of
// their caller; specs/Building.antt and specs/Faults.antt say the complete outcome of each.
#![tactic(auto)]

ghost use Rattle.std.specs.Prelude.{◌≡◌};
ghost use Rattle.planner.specs.Answers.{answered, plain};
ghost use Rattle.catalogue.specs.Building.{others, Built};
ghost use Rattle.catalogue.specs.Faults.{OrderFault, fault_at, told};

use crate::look_up::{devices_of, lacking_at, unfit_at};
use base::Reason;
use planner::{Figures, Refusal, write};
use tables::{JobTable, Kind, Tables, TaskTable};

mod look_up; // look_up.rt: the parts of a catalogue, by their numbers
mod numbers; // numbers.rt: one part number

pub use crate::look_up::{is_repeated, is_unfit, repeated_at};
pub use crate::numbers::{is_formed, signs_of};

// What refuses an order, and the place of the part, or of 23 that of the wanted number.
#[derive(Clone, Copy, PartialEq, Eq)]
pub struct PartFault {
    pub reason: Reason,
    pub part: usize,
}

fn fault_at(reason: Reason, place: Option<usize>) -> Result<(), PartFault>
    ensures { result ≡ fault_at reason place }
{
    match place {
        Some(part) => Err(PartFault { reason, part }),
        None => Ok(()),
    }
}

// The first part, or the first wanted number, at fault.
pub fn order_fault(catalogue: &[u8], wanted: &[u8]) -> Result<(), PartFault>
    ensures { OrderFault catalogue.now wanted.now (told result) }
{
    fault_at(Reason::PartNumber, unfit_at(catalogue))?;
    fault_at(Reason::PartTwice, repeated_at(catalogue))?;
    fault_at(Reason::PartLacking, lacking_at(catalogue, wanted))
}

// A refusal names no part: `order_fault` tells it.
impl From<PartFault> for Refusal {
    ghost from_gives = { λ f r. r ≡ plain f.reason };

    fn from(fault: PartFault) -> Refusal {
        Refusal::from(fault.reason)
    }
}

// Writes the request file of the wanted parts. The catalogue has 15 bytes a part, 8 of part number and 7 of device record; the wanted parts are 8 bytes each.
pub fn build(
    catalogue: &[u8],
    wanted: &[u8],
    horizon: u16,
    tasks: TaskTable,
    jobs: JobTable,
    out: &mut [u8],
) -> Result<Figures, Refusal>
    ensures { Built catalogue.now wanted.now (others horizon tasks jobs) out.old (answered result) out.new }
{
    order_fault(catalogue, wanted)?;
    let devices = devices_of(catalogue, wanted);
    write(
        Tables {
            kind: Kind::First,
            horizon,
            devices,
            tasks,
            jobs,
        },
        out,
    )
}
