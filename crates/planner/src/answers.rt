// What the operations give: figures, or a refusal. The reasons of the parts become refusals by `?`.
ghost use Rattle.std.specs.Prelude.{◌≡◌};
ghost use Rattle.planner.specs.Answers.{answered, plain, placed, unfound};

use crate::Answer;
use base::{JobNumber, Reason};
use schedule::Misplaced;
use visit::Unfound;

// The horizon, and the energy and the count where the operation has them to give.
#[derive(Clone, Copy, PartialEq, Eq)]
pub struct Figures {
    pub horizon: u16,
    pub energy: u32,
    pub count: u32,
}

// Why an operation refuses, with the job at fault or the count of a search where the reason has one.
#[derive(Clone, Copy, PartialEq, Eq)]
pub struct Refusal {
    pub reason: Reason,
    pub job: JobNumber,
    pub count: u32,
}

impl From<Reason> for Refusal {
    ghost from_gives = { λ e r. r ≡ plain e };

    fn from(reason: Reason) -> Refusal {
        Refusal {
            reason,
            job: JobNumber(0),
            count: 0,
        }
    }
}

impl From<Misplaced> for Refusal {
    ghost from_gives = { λ m r. r ≡ placed m };

    fn from(fault: Misplaced) -> Refusal {
        Refusal {
            reason: fault.reason,
            job: fault.job,
            count: 0,
        }
    }
}

impl From<Unfound> for Refusal {
    ghost from_gives = { λ u r. r ≡ unfound u };

    fn from(stop: Unfound) -> Refusal {
        Refusal {
            reason: stop.reason,
            job: JobNumber(0),
            count: stop.count,
        }
    }
}

// The answer as numbers, as C is told it.
pub fn told(outcome: Result<Figures, Refusal>) -> Answer
    ensures { result ≡ answered outcome }
{
    match outcome {
        Ok(figures) => Answer {
            number: 0,
            job: JobNumber(0),
            horizon: figures.horizon,
            energy: figures.energy,
            count: figures.count,
        },
        Err(refusal) => Answer {
            number: refusal.reason.number(),
            job: refusal.job,
            horizon: 0,
            energy: 0,
            count: refusal.count,
        },
    }
}
