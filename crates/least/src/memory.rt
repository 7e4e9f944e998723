// What the search remembers: entries of five words (specs/inside/Entries), four to a row. Which row a key has is of no matter to what is found there: an entry holds its whole
// key. A word of 0 is no entry: of a key that is looked for some job is unplaced.
ghost use Rattle.std.specs.Prelude.{◌≡◌, true, ℕ, ◌+◌, ◌*◌, ◌<◌, ◌≤◌, length};
ghost use Rattle.least.specs.inside.Entries.{key_at, Looked, kept, known_of};

use stored::comparing::is_key;
use stored::{Key, row_of};

const TWO29: u64 = 536870912;

const TWO32: u64 = 4294967296;

// A place for a key, and what is known of it: twice a bound of the least, and one more where it is the least itself; 0 where nothing is known.
// No enum: it is the number that stands in the entry's word, of which the definitions speak.
#[derive(Clone, Copy)]
pub struct Spot {
    pub slot: usize,
    pub known: u32,
}

// Whether entry i has this key.
fn is_at(memory: &[u64], i: usize, q: Key) -> bool
    requires { 5 * i + 5 ≤ length memory.now }
    ensures { result ≡ true → key_at memory.now i ≡ q }
{
    let at = 5 * i;
    is_key(memory, at, memory[at] % TWO29, q)
}

// Looks in the four entries of the key's row. Where it is in none, its place is that of the entry that took the least effort. Where there is no row, nothing is known.
pub fn look(memory: &[u64], q: Key) -> Spot
    ensures { Looked memory.now q result }
{
    let rows = memory.len() / 20;
    if rows == 0 {
        return Spot { slot: 0, known: 0 };
    }
    let from = 4 * row_of(q, rows);
    let mut slot = from;
    let mut least: u64 = 8;
    for i in from..from + 4 {
        if is_at(memory, i, q) {
            return Spot {
                slot: i,
                known: (memory[5 * i] / TWO32) as u32,
            };
        }
        let effort = memory[5 * i] / TWO29 % 8;
        if effort < least {
            least = effort;
            slot = i;
        }
    }
    Spot { slot, known: 0 }
}

// How much work an answer took, from 0 to 7, by the vertices entered for it.
fn effort_of(entered: u32) -> u64
    ensures { result < 8 }
{
    u64::from((entered.max(1).ilog2() / 2).min(7))
}

// What is known of a vertex once `best` is worked out for a limit.
fn known_of(best: u32, limit: u32) -> u32
    requires { best ≤ 2147483647 }
    ensures { result ≡ known_of best limit }
{
    if best < limit { 2 * best + 1 } else { 2 * best }
}

// Writes entry i, if there is room for it.
fn keep(memory: &mut [u64], i: usize, q: Key, effort: u64, known: u32)
    requires { (q.head < 536870912) × (effort < 8) }
    ensures { memory.new ≡ kept memory.old i q effort known }
{
    if i < memory.len() / 5 {
        let at = 5 * i;
        memory[at] = q.head + (TWO29 * effort + TWO32 * known as u64);
        memory[at + 1] = q.idle;
        memory[at + 2] = q.idle4;
        memory[at + 3] = q.first;
        memory[at + 4] = q.first4;
    }
}

// Remembers what was worked out by entering so many vertices.
pub fn remember(memory: &mut [u64], i: usize, q: Key, entered: u32, best: u32, limit: u32)
    requires { (q.head < 536870912) × (best ≤ 2147483647) }
    ensures { (effort : ℕ) × (effort < 8) × (memory.new ≡ kept memory.old i q effort (known_of best limit)) }
{
    keep(memory, i, q, effort_of(entered), known_of(best, limit));
}
