// Jobs on one processor: start times judged, their margins, and the rows and the energy of the plan that they make. The search is in crate visit.
#![tactic(auto)]

use device::{Device, Sleeps};

mod judging; // judging.rt: the first fault of start times
mod margins; // margins.rt: the margins of start times
mod ordering; // ordering.rt: the jobs in running order
mod rows; // rows.rt: the rows of a plan and its energy
mod using; // using.rt: the uses of one device, in running order

pub use crate::judging::{Misplaced, judge};
pub use crate::margins::write_margins;
pub use crate::ordering::running_order;
pub use crate::rows::{plan_energy, write_rows};

// A job: release, deadline, running time, and for each device whether the job uses it.
#[derive(Clone, Copy)]
pub struct Job {
    pub release: u16,
    pub deadline: u16,
    pub run: u16,
    pub uses: [bool; 8],
}

// The jobs of a recorder: the first `count` of the list.
#[derive(Clone, Copy)]
pub struct Jobs {
    pub count: usize,
    pub list: [Job; 16],
}

// The devices of a recorder: the first `count` of the list.
#[derive(Clone, Copy)]
pub struct Devices {
    pub count: usize,
    pub list: [Device; 8],
}

// What a request asks to be planned: one round of the clock for these devices and jobs. `round` says that it is repeated for ever (rule 85), `sleeps`
// how its rows write a sleep (rule 82).
#[derive(Clone, Copy)]
pub struct Recorder {
    pub horizon: u16,
    pub round: bool,
    pub sleeps: Sleeps,
    pub devices: Devices,
    pub jobs: Jobs,
}
