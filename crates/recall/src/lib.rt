// What the counted search remembers: how many vertices lie below a vertex, where their visit left the best as it was. Below every vertex with the same key whose best
// lies as far above its floor it counts as many (proofs/Beside).
#![tactic(auto)]

pub mod memory; // memory.rt: the entries
pub mod asking; // asking.rt: what is remembered of a vertex
