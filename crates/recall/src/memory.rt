// The memory of the counted search: entries of six words (specs/inside/Entries), a key with its slack and a count. Which entry a key has is of no matter to what is found
// there: an entry holds its whole key. A count of 0 is no entry.
ghost use Rattle.std.specs.Prelude.{◌≡◌, true, ◌+◌, ◌*◌, ◌<◌, ◌≤◌, length};
ghost use Rattle.recall.specs.inside.Entries.{key_at, slacked_by, Looked, kept};

use stored::comparing::is_key;
use stored::{Key, row_of};

const TWO29: u64 = 536870912;

const TWO32: u64 = 4294967296;

// A place for a key, and how many vertices are counted below a vertex with it, where that is known.
#[derive(Clone, Copy)]
pub struct Spot {
    pub slot: usize,
    pub count: Option<u32>,
}

// The key with its slack, which stands above the 29 bits of the head.
pub fn slacked(q: Key, slack: u32) -> Key
    requires { q.head < 536870912 }
    ensures { result ≡ slacked_by q slack }
{
    Key {
        head: q.head + TWO29 * slack as u64,
        ..q
    }
}

// Whether entry i has this key.
fn is_at(memory: &[u64], i: usize, q: Key) -> bool
    requires { 6 * i + 6 ≤ length memory.now }
    ensures { result ≡ true → key_at memory.now i ≡ q }
{
    let at = 6 * i;
    is_key(memory, at, memory[at], q)
}

// Looks at the one place that the key has. Where there is no entry at all, nothing is known.
pub fn look(memory: &[u64], q: Key) -> Spot
    ensures { Looked memory.now q result }
{
    let entries = memory.len() / 6;
    if entries == 0 {
        return Spot {
            slot: 0,
            count: None,
        };
    }
    let slot = row_of(q, entries);
    if is_at(memory, slot, q) {
        let count = (memory[6 * slot + 5] % TWO32) as u32;
        if 0 < count {
            return Spot {
                slot,
                count: Some(count),
            };
        }
    }
    Spot { slot, count: None }
}

// Writes entry i, if there is room for it.
pub fn keep(memory: &mut [u64], i: usize, q: Key, count: u32)
    ensures few { count < 4294967296 }
    ensures written { memory.new ≡ kept memory.old i q count }
{
    if i < memory.len() / 6 {
        let at = 6 * i;
        memory[at] = q.head;
        memory[at + 1] = q.idle;
        memory[at + 2] = q.idle4;
        memory[at + 3] = q.first;
        memory[at + 4] = q.first4;
        memory[at + 5] = count as u64;
    }
}
