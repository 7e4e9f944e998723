// The rows of a text without fault, as bytes.
ghost use Rattle.std.specs.Prelude.{◌≡◌, true, false, map, ◌+◌, ◌*◌, ◌≤◌, length};
ghost use Rattle.tables.specs.Records.{averaged, first_bytes, job_bytes};
ghost use Rattle.base.specs.Bytes.{in_row};
ghost use Rattle.text.specs.Grammar.{lines_of, unread};
ghost use Rattle.text.specs.Numerals.{value_of, is_number};
ghost use Rattle.text.specs.inside.Cursors.{raw_of, field_at};
ghost use Rattle.text.specs.inside.Putting.{Put};
ghost use Rattle.sheet.specs.Sheets.{part_bytes};
ghost use Rattle.sheet_import.specs.inside.Reading.{part_raw, job_raw, Sound, Formed, EachLine};
ghost use Rattle.sheet_import.specs.inside.RowBytes.{row_bytes, row_size, Ready};

use crate::parts::eight_of;
use sheet::SheetKind;
use text::{field, line, number_of, put_byte, put_bytes, put_pair};

// ---- fields

// A field that is a number of at most 65,535, or 255.
fn number_at(line: &[u8], i: usize) -> u16
    requires { (unread (raw_of line.now) ≡ false) × (is_number 65535 (field_at (raw_of line.now) i) ≡ true) }
    ensures { result ≡ value_of (field_at (raw_of line.now) i) }
{
    number_of(field(line, i)).unwrap()
}

fn byte_at(line: &[u8], i: usize) -> u8
    requires { (unread (raw_of line.now) ≡ false) × (is_number 255 (field_at (raw_of line.now) i) ≡ true) }
    ensures { result ≡ value_of (field_at (raw_of line.now) i) }
{
    number_at(line, i) as u8
}

// ---- devices

fn put_device(out: &mut [u8], at: usize, t: u8, pw: u16, ps: u16, p0: u16) -> usize
    requires { at + 7 ≤ length out.old }
    ensures { Put (first_bytes (averaged t pw ps p0)) at out.old result out.new }
{
    let work = put_byte(out, at, t);
    let sleep = put_pair(out, work, pw);
    let moving = put_pair(out, sleep, ps);
    put_pair(out, moving, p0)
}

// One part: 8 bytes of number, 7 of device record.
fn put_part(out: &mut [u8], at: usize, line: &[u8]) -> usize
    requires { (at + 15 ≤ length out.old) × (Sound SheetKind.Devices line.now × Formed line.now) }
    ensures { Put (part_bytes (part_raw line.now)) at out.old result out.new }
{
    let eight = eight_of(field(line, 0));
    let next = put_bytes(out, at, &eight);
    put_device(
        out,
        next,
        byte_at(line, 1),
        number_at(line, 2),
        number_at(line, 3),
        number_at(line, 4),
    )
}

// ---- jobs

fn put_record(out: &mut [u8], at: usize, line: &[u8]) -> usize
    requires { (at + 7 ≤ length out.old) × Sound SheetKind.Jobs line.now }
    ensures { Put (job_bytes (job_raw line.now)) at out.old result out.new }
{
    let due = put_pair(out, at, number_at(line, 0));
    let run = put_pair(out, due, number_at(line, 1));
    let set = put_pair(out, run, number_at(line, 2));
    put_byte(out, set, byte_at(line, 3))
}

// ---- rows

fn put_row(out: &mut [u8], at: usize, line: &[u8], rows: SheetKind) -> usize
    requires { (at + row_size rows ≤ length out.old) × Ready rows line.now }
    ensures { Put (row_bytes rows line.now) at out.old result out.new }
{
    match rows {
        SheetKind::Devices => put_part(out, at, line),
        SheetKind::Jobs => put_record(out, at, line),
    }
}

pub(crate) fn put_rows(out: &mut [u8], text: &[u8], lines: usize, rows: SheetKind)
    requires { (lines ≡ length (lines_of text.now)) × (lines * row_size rows ≤ length out.old) × EachLine (Ready rows) text.now }
    ensures { Put (in_row (map (row_bytes rows) (lines_of text.now))) 0 out.old (lines * row_size rows) out.new }
{
    let mut at = 0;
    for k in 0..lines {
        at = put_row(out, at, line(text, k), rows);
    }
}
