// The key of a vertex as searches that remember store it: its words, the row of a table in which it is looked for, and a table that is forgotten.
#![tactic(auto)]

ghost use Rattle.std.specs.Prelude.{◌≡◌, ℕ, ◌<◌, get_or};

pub mod comparing; // comparing.rt: a stored key compared
pub mod naming; // naming.rt: the key of a vertex

const TWO32: u64 = 4294967296;

// head: the set of the unplaced jobs, and 65,536 times the time. Then the idle times of the devices from 0 and from 4 on, and their first uses, sixteen bits each.
#[derive(Clone, Copy, PartialEq, Eq)]
pub struct Key {
    pub head: u64,
    pub idle: u64,
    pub idle4: u64,
    pub first: u64,
    pub first4: u64,
}

// Any number from any two: nothing is asked of it but that it is spread well.
fn mix(h: u64, x: u64) -> u64 {
    let a = ((h / 65536 + x % TWO32) % TWO32) * 2654435769;
    ((a / 65536 + x / TWO32) % TWO32) * 2246822519
}

// One of n rows.
pub fn row_of(q: Key, n: usize) -> usize
    requires { 0 < n }
    ensures { result < n }
{
    let h = mix(
        mix(mix(mix(mix(77, q.head), q.idle), q.idle4), q.first),
        q.first4,
    );
    (h / 65536 % n as u64) as usize
}

// Forgets all, whatever it was.
pub fn clear(memory: &mut [u64])
    ensures { (i : ℕ) → get_or memory.new i 0 ≡ 0 }
{
    memory.fill(0);
}
