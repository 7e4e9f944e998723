// What the functions of the visit hand on: what they read, the vertex that they stand at, and a child of it.
use base::JobNumber;
use flat::Flat;
use vertex::cells::Cells;

// What the search reads: the recorder, the table of extras, and how many vertices it may count.
#[derive(Clone, Copy)]
pub struct Search<'a> {
    pub r: &'a Flat,
    pub extras: &'a [u32],
    pub budget: u32,
}

// A vertex: what shows it, the set of its unplaced jobs, its floor and its time.
#[derive(Clone, Copy)]
pub struct Place<'a> {
    pub v: &'a Cells,
    pub set: usize,
    pub from: u32,
    pub time: u32,
}

// A child of it: the job that it places, the bit of that job in a set, its start, and the child's floor.
#[derive(Clone, Copy)]
pub struct Child {
    pub j: JobNumber,
    pub p: usize,
    pub s: u32,
    pub floor: u32,
}
