// Writing a device's least row, a byte for each tick, from left to right and every byte once: `write_run` has the one store. It is lent the part of the row that
// is not written yet, writes at its front and says how many places it took; there the next part begins, and what is written is out of its reach.
ghost use Rattle.std.specs.Prelude.{◌≡◌, ◌++◌, map, ◌+◌, ◌-◌, ◌≤◌, length, replicate, take, drop};
ghost use Rattle.device.specs.Row.{Sound, at, byte_of, gap_row, row_of, pattern};
ghost use Rattle.device.specs.inside.Trips.{shared, trip_bytes, around};
ghost use Rattle.device.specs.inside.Uses.{begin, used_in, after, after_from, Spaced};

use crate::energy::{front_of, gap_trip, is_idle};
use crate::{Device, Sleeps, Uses};

// Writes a run of n equal letters at the front of what is not written yet.
fn write_run(rest: &mut [u8], n: usize, letter: u8) -> usize
    requires { n ≤ length rest.old }
    ensures { (result ≡ n) × (rest.new ≡ replicate n letter ++ drop n rest.old) }
{
    rest[..n].fill(letter);
    n
}

// The letter of a tick at a level (rules 30 and 82).
fn letter_at(sleeps: Sleeps, level: usize) -> u8
    requires { level ≤ 4 }
    ensures { result ≡ byte_of sleeps (at level) }
{
    if level == 0 {
        return b'W';
    }
    match sleeps {
        Sleeps::Plain => b'S',
        Sleeps::Numbered => b'0' + level as u8,
    }
}

// Writes there, of a run of c equal letters, those from x on and before y.
fn write_some(rest: &mut [u8], c: usize, letter: u8, x: usize, y: usize) -> usize
    requires { (x ≤ y) × (shared c x y ≤ length rest.old) }
    ensures { (result ≡ shared c x y) × (rest.new ≡ replicate (shared c x y) letter ++ drop (shared c x y) rest.old) }
{
    write_run(rest, c.saturating_sub(x) - c.saturating_sub(y), letter)
}

// Writes there, of a trip, n ticks from tick x on. The trip has so many ticks down, then so many of one letter, then so many up; done counts the places.
fn write_trip(
    rest: &mut [u8],
    down: usize,
    stay: usize,
    up: usize,
    letter: u8,
    x: usize,
    n: usize,
) -> usize
    requires { (x + n ≤ down + stay + up) × ((down + stay + up ≤ 65535) × (n ≤ length rest.old)) }
    ensures { (result ≡ n) × (rest.new ≡ take n (drop x (trip_bytes down stay up letter)) ++ drop n rest.old) }
{
    let y = x + n;
    let rising = down + stay;
    let mut done = write_some(rest, down, b'D', x, y);
    done += write_some(
        &mut rest[done..],
        stay,
        letter,
        x.saturating_sub(down),
        y.saturating_sub(down),
    );
    done + write_some(
        &mut rest[done..],
        up,
        b'U',
        x.saturating_sub(rising),
        y.saturating_sub(rising),
    )
}

// Writes there, of a gap of g ticks, n from tick x on: of the trip that the device makes in it.
fn write_gap(rest: &mut [u8], sleeps: Sleeps, d: Device, g: usize, x: usize, n: usize) -> usize
    requires { Sound d × ((g ≤ 65535) × ((x + n ≤ g) × (n ≤ length rest.old))) }
    ensures { (result ≡ n) × (rest.new ≡ take n (drop x (map (byte_of sleeps) (gap_row d g))) ++ drop n rest.old) }
{
    if n == 0 {
        return 0;
    }
    let trip = gap_trip(d, g as u16);
    let level = trip.level;
    let down = d.shut as usize * level;
    let up = d.wake as usize * level;
    let stay = g - (down + up);
    write_trip(rest, down, stay, up, letter_at(sleeps, level), x, n)
}

// The end of the last use, 0 where there is none.
fn last_end(u: Uses) -> u16
    requires { u.count ≤ 16 }
    ensures { result ≡ after u u.count }
{
    let n = u.count;
    if n == 0 { 0 } else { u.ends[n - 1] }
}

// Writes a row of h ticks. Its last `tail` ticks are the beginning of a gap of which its first `front` ticks are the end: the gap goes on over the seam.
fn write_around(
    sleeps: Sleeps,
    d: Device,
    h: usize,
    u: Uses,
    front: usize,
    tail: usize,
    out: &mut [u8],
)
    requires { Sound d × (Spaced u h × ((front ≤ begin u 0) × ((after_from front u u.count ≤ h) × ((tail ≡ h - after_from front u u.count) × ((h ≤ 65535) × (h ≤ length out.old)))))) }
    ensures { out.new ≡ around sleeps d u front tail ++ drop h out.old }
{
    let seam = tail + front;
    let mut at = write_gap(out, sleeps, d, seam, tail, front);
    for i in 0..u.count {
        let begin = u.begins[i] as usize;
        let end = u.ends[i] as usize;
        let gap = begin - at;
        at += write_gap(&mut out[at..], sleeps, d, gap, 0, gap);
        at += write_run(&mut out[at..], end - begin, b'W');
    }
    write_gap(&mut out[at..], sleeps, d, seam, 0, tail);
}

// Writes the least row of a device over h ticks with these uses, and keeps what follows it.
pub fn write_row(round: bool, sleeps: Sleeps, d: Device, h: u16, u: Uses, out: &mut [u8])
    requires { Sound d × (Spaced u h × (h ≤ length out.old)) }
    ensures { out.new ≡ map (byte_of sleeps) (row_of round d (pattern (used_in u) 0 h)) ++ drop h out.old }
{
    let ticks = h as usize;
    if is_idle(round, u) {
        write_run(out, ticks, letter_at(sleeps, d.levels as usize));
        return;
    }
    let front = front_of(round, u) as usize;
    let tail = ticks - last_end(u) as usize;
    write_around(sleeps, d, ticks, u, front, tail, out);
}
