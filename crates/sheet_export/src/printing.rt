// Tables as text, a line for each row.
ghost use Rattle.std.specs.Prelude.{◌≡◌, false, [], ◌∷◌, ◌++◌, ◌+◌, ◌*◌, ◌%◌, ◌≤◌, length};
ghost use Rattle.base.specs.Bytes.{pieces};
ghost use Rattle.catalogue.specs.Parts.{front, part_of, parts_of, unfit};
ghost use Rattle.text.specs.Grammar.{quote, comma};
ghost use Rattle.text.specs.inside.Putting.{Put};
ghost use Rattle.sheet.specs.Sheets.{devices_text, jobs_text, jobs_of};
ghost use Rattle.sheet_export.specs.inside.Printing.{part_text, record_text};

use catalogue::signs_of;
use tables::{first_at, job_at};
use text::{put_byte, put_bytes, put_line};

// A part number in quotes, without its padding, and a comma.
fn put_quoted(out: &mut [u8], at: usize, number: &[u8]) -> usize
    requires { at + 3 + length (front number.now) ≤ length out.old }
    ensures { Put (quote ∷ front number.now ++ quote ∷ comma ∷ []) at out.old result out.new }
{
    let signs = signs_of(number);
    let from = put_byte(out, at, b'"');
    let end = put_bytes(out, from, &number[..signs]);
    let next = put_byte(out, end, b'"');
    put_byte(out, next, b',')
}

// The line of a part, with its CR LF.
fn put_part_line(out: &mut [u8], at: usize, part: &[u8]) -> usize
    requires { (at + 36 ≤ length out.old) × (length part.now ≡ 15) }
    ensures { Put (part_text (part_of part.now)) at out.old result out.new }
{
    let next = put_quoted(out, at, &part[..8]);
    let d = first_at(part, 8);
    put_line(out, next, &[u16::from(d.wake), d.pw, d.ps, d.pwake])
}

pub(crate) fn put_part_lines(out: &mut [u8], catalogue: &[u8]) -> usize
    requires { (unfit (parts_of catalogue.now) ≡ false) × (length out.old ≡ 2304) }
    ensures { (result ≤ 2304) × Put (devices_text (parts_of catalogue.now)) 0 out.old result out.new }
{
    let mut at = 0;
    for k in 0..catalogue.len() / 15 {
        let from = 15 * k;
        at = put_part_line(out, at, &catalogue[from..from + 15]);
    }
    at
}

// The line of the job record at a place.
fn put_job_line(out: &mut [u8], at: usize, piece: &[u8]) -> usize
    requires { (at + 25 ≤ length out.old) × (length piece.now ≡ 7) }
    ensures { Put (record_text piece.now) at out.old result out.new }
{
    let j = job_at(piece, 0);
    put_line(out, at, &[j.release, j.deadline, j.run, u16::from(j.set)])
}

pub(crate) fn put_job_lines(out: &mut [u8], records: &[u8]) -> usize
    requires { (length records.now ≤ 112) × (length records.now % 7 ≡ 0) × (length out.old ≡ 400) }
    ensures { (result ≤ 400) × Put (jobs_text (jobs_of (pieces 7 records.now))) 0 out.old result out.new }
{
    let mut at = 0;
    for k in 0..records.len() / 7 {
        let from = 7 * k;
        at = put_job_line(out, at, &records[from..from + 7]);
    }
    at
}
