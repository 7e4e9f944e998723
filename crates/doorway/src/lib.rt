// What the doors share: when one is shut, and how many of the start times and places that it is lent it hands on. specs/Doors.antt says what every door does.
#![tactic(auto)]

ghost use Rattle.std.specs.Prelude.{◌≡◌, ◌*◌, ◌%◌, ◌≤◌, length, get_or, take};
ghost use Rattle.doorway.specs.Doors.{Decides, starts_of, fours};
ghost use Rattle.doorway.specs.inside.Handing.{Handed};

use calls::{RESULT, get_starts};

pub const SHUT: u8 = 255;

// Whether a door opens: to whole start times, and a result buffer with room for an answer.
pub fn is_open(starts: usize, res: usize) -> bool
    ensures { Decides result ((starts % 2 ≡ 0) × (11 ≤ res)) }
{
    starts % 2 == 0 && RESULT <= res
}

// Puts the start times of a list of bytes into a list of one's own, and tells how many there are to hand on: all, or one more than a file can have jobs.
pub fn hand_starts(bytes: &[u8], own: &mut [u16]) -> usize
    requires { length own.old ≡ 17 }
    ensures { (result ≤ 17) × Handed (starts_of bytes.now) (take result own.new) }
{
    let n = (bytes.len() / 2).min(17);
    get_starts(bytes, &mut own[..n]);
    n
}

// Numbers as four bytes each, from the first byte on.
pub fn put_fours(values: &[u32], bytes: &mut [u8])
    requires { length values.now * 4 ≤ length bytes.old }
    ensures { bytes.new ≡ fours (λ j. get_or values.now j 0) (length values.now) bytes.old }
{
    for (j, value) in values.iter().enumerate() {
        let at = j * 4;
        bytes[at..at + 4].copy_from_slice(&value.to_be_bytes());
    }
}
