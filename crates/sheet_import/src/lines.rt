// What refuses a line of a sheet, and a text by its first faulty line.
ghost use Rattle.std.specs.Prelude.{◌≡◌, false, ◌<◌, drop, get_or};
ghost use Rattle.text.specs.Grammar.{lines_of, unread};
ghost use Rattle.base.specs.Reasons.{number_in};
ghost use Rattle.text.specs.inside.Cursors.{raw_of, fits};
ghost use Rattle.sheet_import.specs.LineFaults.{told};
ghost use Rattle.sheet.specs.Sheets.{columns_of, are_numbers, line_fault};
ghost use Rattle.sheet_import.specs.inside.Judging.{first_line};
ghost use Rattle.sheet_import.specs.inside.Reading.{raw_in};

use crate::LineFault;
use base::Reason;
use sheet::SheetKind;
use text::{count_fields, field, line_end, next_line, number_of};

// How many fields of text stand before the four numbers.
fn texts(rows: SheetKind) -> usize
    ensures { result ≡ (columns_of rows).texts }
{
    match rows {
        SheetKind::Devices => 1,
        SheetKind::Jobs => 0,
    }
}

// The most that number k may be: T and the device set have a byte, the others two.
fn most(rows: SheetKind, k: usize) -> u16
    requires { k < 4 }
    ensures { result ≡ get_or (columns_of rows).most k 0 }
{
    match (rows, k) {
        (SheetKind::Devices, 0) | (SheetKind::Jobs, 3) => 255,
        _ => 65535,
    }
}

fn fits(number: Option<u16>, most: u16) -> bool
    ensures { result ≡ fits most number }
{
    number.is_some_and(|n| n <= most)
}

fn are_numbers(line: &[u8], rows: SheetKind) -> bool
    requires { unread (raw_of line.now) ≡ false }
    ensures { result ≡ are_numbers (columns_of rows).most (drop (columns_of rows).texts (raw_in line.now)) }
{
    let first = texts(rows);
    for k in 0..4 {
        if !fits(number_of(field(line, first + k)), most(rows, k)) {
            return false;
        }
    }
    true
}

// 27, 28 or 29, in this order.
fn line_fault(line: &[u8], rows: SheetKind) -> Result<(), Reason>
    ensures { number_in result ≡ line_fault rows line.now }
{
    let count = count_fields(line).ok_or(Reason::StrayQuote)?;
    if count != texts(rows) + 4 {
        return Err(Reason::FieldCount);
    }
    if are_numbers(line, rows) {
        Ok(())
    } else {
        Err(Reason::FieldNumber)
    }
}

// The first line at fault.
pub(crate) fn lines_fault(text: &[u8], rows: SheetKind) -> Result<(), LineFault>
    ensures { told result ≡ first_line rows 0 (lines_of text.now) }
{
    let mut at = 0;
    let mut line = 0;
    while at < text.len() {
        let end = at + line_end(&text[at..]);
        if let Err(reason) = line_fault(&text[at..end], rows) {
            return Err(LineFault { reason, line });
        }
        at += next_line(&text[at..]);
        line += 1;
    }
    Ok(())
}
