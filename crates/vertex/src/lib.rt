// A vertex of the search as lent numbers: how late a child of it may end, what a job and the end add to its floor, and placing a job. Both sums over the unplaced jobs
// are stored in it, and placing a job keeps them right, so that nothing is added up anew at a vertex.
#![tactic(auto)]

pub mod cells; // cells.rt: a vertex as lent numbers, and a job placed
pub mod gaps; // gaps.rt: what a job and the end add
pub mod dues; // dues.rt: cut A as one comparison
