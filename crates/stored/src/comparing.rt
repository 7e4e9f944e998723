// A stored key compared: the words that follow the first of an entry are the last four of its key; what the first holds is told by each memory for itself.
ghost use Rattle.std.specs.Prelude.{◌≡◌, true, ◌+◌, ◌≤◌, length};
ghost use Rattle.stored.specs.inside.Holding.{Holds};

use crate::Key;

// Whether the entry from the place `at` on, whose first word has `head` of a key, holds the key q.
pub fn is_key(memory: &[u64], at: usize, head: u64, q: Key) -> bool
    requires { at + 5 ≤ length memory.now }
    ensures { result ≡ true → Holds memory.now at head q }
{
    let held = Key {
        head,
        idle: memory[at + 1],
        idle4: memory[at + 2],
        first: memory[at + 3],
        first4: memory[at + 4],
    };
    held == q
}
