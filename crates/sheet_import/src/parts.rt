// The part numbers of a text whose lines are without fault.
ghost use Rattle.std.specs.Prelude.{◌≡◌, false, not, ◌≤◌, length};
ghost use Rattle.base.specs.Lists.{padded};
ghost use Rattle.catalogue.specs.Parts.{space, well_formed};
ghost use Rattle.catalogue.specs.Faults.{FirstOf, unfit_at};
ghost use Rattle.text.specs.Grammar.{lines_of, unread};
ghost use Rattle.text.specs.inside.Cursors.{raw_of, field_at};
ghost use Rattle.sheet_import.specs.inside.Reading.{devices_raw, Sound, EachLine};

use catalogue::is_formed;
use sheet::SheetKind;
use text::{field, line};

// The eight bytes of a part number, spaces behind the field's own.
pub(crate) fn eight_of(field: &[u8]) -> [u8; 8]
    requires { length field.now ≤ 8 }
    ensures { result ≡ padded 8 space field.now }
{
    let mut eight = [b' '; 8];
    eight[..field.len()].copy_from_slice(field);
    eight
}

// 21: a part number over eight bytes, or badly formed.
fn is_bad(line: &[u8]) -> bool
    requires { unread (raw_of line.now) ≡ false }
    ensures { result ≡ not (well_formed (padded 8 space (field_at (raw_of line.now) 0))) }
{
    let number = field(line, 0);
    number.len() > 8 || !is_formed(&eight_of(number))
}

// The first line with such a number, or with 64 lines before it.
pub(crate) fn unfit_line(text: &[u8], lines: usize) -> Option<usize>
    requires { (lines ≡ length (lines_of text.now)) × EachLine (Sound SheetKind.Devices) text.now }
    ensures { FirstOf lines (unfit_at (devices_raw (lines_of text.now))) result }
{
    for k in 0..lines {
        if k >= 64 || is_bad(line(text, k)) {
            return Some(k);
        }
    }
    None
}
