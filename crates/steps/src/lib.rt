// One device step by step, as the recorder itself runs it: its record, what a start, a completion and passing ticks do to it, and a whole round. There is no row.
#![tactic(auto)]

mod rules; // rules.rt: what is done at a start and at a completion
mod stepping; // stepping.rt: a device along the jobs of a round
mod ticks; // ticks.rt: what passes between two events

pub use crate::stepping::{on_end, on_start, pass, pass_fitting, run};
pub use crate::ticks::energy_ticks;

// What a device does. A number is the ticks left of a move.
#[derive(Clone, Copy)]
pub enum State {
    Working,
    Asleep,
    Down(u8),
    Up(u8),
}

// A stepped device's record (rule 90): its state, and the energy that it has spent.
#[derive(Clone, Copy)]
pub struct Stepped {
    pub state: State,
    pub energy: u32,
}

// The jobs in running order, as one device sees them: job i begins at tick begins[i], ends before tick ends[i], and uses the device or not.
#[derive(Clone, Copy)]
pub struct Order {
    pub count: usize,
    pub begins: [u16; 16],
    pub ends: [u16; 16],
    pub uses: [bool; 16],
}
