// The least extras to come of a vertex (value/specs/inside/Leasts), worked out with a memory; and the schedule that is read off it. A search for a number, not for a plan:
// what is still to pay depends on the key of a vertex alone, so that it is worked out once for all vertices with the same key, as far as the memory reaches.
#![tactic(auto)]

pub mod leads; // leads.rt: how far the rest may fall, and how long to wait
pub mod memory; // memory.rt: what is remembered
pub mod search; // search.rt: the search
pub mod reading; // reading.rt: the schedule read off
