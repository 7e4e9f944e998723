// Comma-separated text: its lines, its fields and its numbers, read and written. specs/Grammar.antt and Numerals.antt say what they are.
#![tactic(auto)]

mod fields; // fields.rt: the fields of a line
mod lines; // lines.rt: the lines of a text
mod numbers; // numbers.rt: a number in digits
mod putting; // putting.rt: bytes, numbers and lines put one after the other

pub use crate::fields::{count_fields, field};
pub use crate::lines::{count_lines, line, line_end, next_line};
pub use crate::numbers::number_of;
pub use crate::putting::{put_byte, put_bytes, put_line, put_number, put_pair};

// Before a field; in one without quotes; between quotes; behind the quote that may close it.
#[derive(Clone, Copy)]
pub enum State {
    Fresh,
    Plain,
    Quoted,
    Closed,
}

// What a byte does: it is a fault, it ends the field, or it goes on in a state.
#[derive(Clone, Copy)]
pub enum Turn {
    Stray,
    Ends,
    Goes(State),
}
