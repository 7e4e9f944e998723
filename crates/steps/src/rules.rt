// What is done at a start and at a completion (rules 92 and 93).
ghost use Rattle.std.specs.Prelude.{◌≡◌, not, ◌&&◌, ◌||◌, leb, ltb};
ghost use Rattle.steps.specs.Stepping.{at_start, at_end};

use crate::State;

// Whether a move has room in the pause.
fn has_room(t: u8, pause: u16) -> bool
    ensures { result ≡ leb t pause }
{
    t as u16 <= pause
}

// Whether a working device goes down at a start.
fn falls_at_start(t: u8, this: bool, next: bool, pause: u16) -> bool
    ensures { result ≡ (not this && (not next || leb t pause)) }
{
    !this && (!next || has_room(t, pause))
}

// Whether a sleeping device comes up at a start.
fn rises_at_start(t: u8, next: bool, pause: u16) -> bool
    ensures { result ≡ (next && ltb pause t) }
{
    next && pause < t as u16
}

// Whether a working device goes down at a completion.
fn falls_at_end(t: u8, this: bool, next: bool, pause: u16) -> bool
    ensures { result ≡ (this && (not next && leb t pause)) }
{
    this && !next && has_room(t, pause)
}

// The state after a start.
pub fn start_state(t: u8, this: bool, next: bool, pause: u16, st: State) -> State
    ensures { result ≡ at_start t this next pause st }
{
    match st {
        State::Working if falls_at_start(t, this, next, pause) => State::Down(t),
        State::Asleep if rises_at_start(t, next, pause) => State::Up(t),
        _ => st,
    }
}

// The state after a completion.
pub fn end_state(t: u8, this: bool, next: bool, pause: u16, st: State) -> State
    ensures { result ≡ at_end t this next pause st }
{
    match st {
        State::Working if falls_at_end(t, this, next, pause) => State::Down(t),
        State::Asleep if next => State::Up(t),
        _ => st,
    }
}
