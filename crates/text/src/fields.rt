// The fields of a line. Two quotes between quotes stay as they stand: a field with a quote in it is neither a number nor a part number, so that nobody sees it.
ghost use Rattle.std.specs.Prelude.{◌≡◌, false, cond, eqb};
ghost use Rattle.text.specs.Grammar.{comma, quote, step, unread};
ghost use Rattle.text.specs.inside.Cursors.{raw, raw_of, turn_of, is_over, told, cut_of, first_field, counted, field_at};

use crate::{State, Turn};

// By the byte: a comma, a quote, or any other.
fn by_byte(b: u8, ending: Turn, quoting: Turn, other: Turn) -> Turn
    ensures { result ≡ cond (eqb b comma) ending (cond (eqb b quote) quoting other) }
{
    if b == b',' {
        ending
    } else if b == b'"' {
        quoting
    } else {
        other
    }
}

fn turn_at(state: State, b: u8) -> Turn
    ensures { result ≡ turn_of (step raw state b) }
{
    match state {
        State::Fresh => by_byte(
            b,
            Turn::Ends,
            Turn::Goes(State::Quoted),
            Turn::Goes(State::Plain),
        ),
        State::Plain => by_byte(b, Turn::Ends, Turn::Stray, Turn::Goes(State::Plain)),
        State::Quoted => by_byte(
            b,
            Turn::Goes(State::Quoted),
            Turn::Goes(State::Closed),
            Turn::Goes(State::Quoted),
        ),
        State::Closed => by_byte(b, Turn::Ends, Turn::Goes(State::Quoted), Turn::Stray),
    }
}

fn is_over(state: State) -> bool
    ensures { result ≡ is_over state }
{
    !matches!(state, State::Quoted)
}

// How many bytes the first field of what is left of a line has with its quotes; none where a quote in it is stray or still open.
fn cut(s: &[u8]) -> Option<usize>
    ensures { result ≡ told (cut_of s.now) }
{
    let mut state = State::Fresh;
    for (i, b) in s.iter().enumerate() {
        match turn_at(state, *b) {
            Turn::Stray => return None,
            Turn::Ends => return Some(i),
            Turn::Goes(next) => state = next,
        }
    }
    if is_over(state) { Some(s.len()) } else { None }
}

// How many fields a line has; none where a quote is stray or still open.
pub fn count_fields(line: &[u8]) -> Option<usize>
    ensures { result ≡ counted 0 (raw_of line.now) }
{
    let mut at = 0;
    let mut count = 0;
    loop {
        let end = at + cut(&line[at..])?;
        count += 1;
        if end == line.len() {
            return Some(count);
        }
        at = end + 1;
    }
}

// The first field of what is left of a line, without the quotes around it.
fn first_field(s: &[u8]) -> &[u8]
    requires { unread (raw_of s.now) ≡ false }
    ensures { result.now ≡ first_field s.now }
{
    let size = cut(s).unwrap();
    if size > 0 && s[0] == b'"' {
        return &s[1..size - 1];
    }
    &s[..size]
}

// Field i of a line that is read; empty past the last.
pub fn field(line: &[u8], i: usize) -> &[u8]
    requires { unread (raw_of line.now) ≡ false }
    ensures { result.now ≡ field_at (raw_of line.now) i }
{
    let mut at = 0;
    for _ in 0..i {
        let end = at + cut(&line[at..]).unwrap();
        if end == line.len() {
            return &line[..0];
        }
        at = end + 1;
    }
    first_field(&line[at..])
}
