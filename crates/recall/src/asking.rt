// What is remembered of a vertex at a slack.
ghost use Rattle.std.specs.Prelude.{◌<◌};
ghost use Rattle.flat.specs.inside.Flat.{recorder_of};
ghost use Rattle.extras.specs.inside.Tabled.{Tabled, cap_at};
ghost use Rattle.vertex.specs.inside.Shown.{ShownAt};
ghost use Rattle.recall.specs.inside.Entries.{Right};
ghost use Rattle.recall.specs.inside.Counts.{Counts};
ghost use Rattle.recall.specs.inside.Asks.{Asks};

use crate::memory::{Spot, look, slacked};
use flat::Flat;
use stored::Key;
use stored::naming::key_of;
use vertex::cells::Cells;

// The key of a vertex with its slack, the place that it has, and how many vertices are counted below, where that is known.
#[derive(Clone, Copy)]
pub struct Asked {
    pub key: Key,
    pub slot: usize,
    pub count: Option<u32>,
}

pub fn ask(
    r: &Flat,
    extras: &[u32],
    memory: &[u64],
    v: &Cells,
    set: usize,
    time: u32,
    slack: u32,
) -> Asked
    requires { Tabled (recorder_of r.now) extras.now × (ShownAt (recorder_of r.now) v.now set time × Right (Counts (recorder_of r.now) (cap_at extras.now)) memory.now) }
    ensures { Asks (recorder_of r.now) (cap_at extras.now) v.now set time slack result }
{
    let key = slacked(key_of(r, extras, v, set, time), slack);
    let Spot { slot, count } = look(memory, key);
    Asked { key, slot, count }
}
