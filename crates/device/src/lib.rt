// One device: its figures, the energy of its least row, and writing that row.
#![tactic(auto)]

mod energy;
mod writer;

pub use crate::energy::{Trip, energy_of, gap_trip};
pub use crate::writer::write_row;

// A device, of whatever kind: the ticks of a move down and of one up, by one level; the powers at work, going down and coming up; and the powers of its sleep
// levels, the shallowest first.
#[derive(Clone, Copy)]
pub struct Device {
    pub shut: u8,
    pub wake: u8,
    pub pw: u16,
    pub pd: u16,
    pub pu: u16,
    pub levels: u8,
    pub powers: [u16; 4],
}

// How rows write a sleep: as S whatever its level, or as the digit of its level (rules 30 and 82).
#[derive(Clone, Copy)]
pub enum Sleeps {
    Plain,
    Numbered,
}

// The uses of one device in running order: use i begins at tick begins[i] and ends before tick ends[i].
#[derive(Clone, Copy)]
pub struct Uses {
    pub count: usize,
    pub begins: [u16; 16],
    pub ends: [u16; 16],
}
