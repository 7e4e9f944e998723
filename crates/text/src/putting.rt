// Bytes, numbers and lines, put one after the other into lent memory. Each function is told a place, puts its bytes there and returns the place behind them;
// all else stays as it was (specs/inside/Putting.antt).
ghost use Rattle.std.specs.Prelude.{[], ◌∷◌, ◌+◌, ◌≤◌, length};
ghost use Rattle.base.specs.Bytes.{pair_bytes};
ghost use Rattle.text.specs.Numerals.{digits_of};
ghost use Rattle.text.specs.inside.Putting.{Put, line_text};

pub fn put_byte(out: &mut [u8], at: usize, byte: u8) -> usize
    requires { at + 1 ≤ length out.old }
    ensures { Put (byte ∷ []) at out.old result out.new }
{
    out[at] = byte;
    at + 1
}

pub fn put_bytes(out: &mut [u8], at: usize, bytes: &[u8]) -> usize
    requires { at + length bytes.now ≤ length out.old }
    ensures { Put bytes.now at out.old result out.new }
{
    let end = at + bytes.len();
    out[at..end].copy_from_slice(bytes);
    end
}

// A number as two bytes, the high one first.
pub fn put_pair(out: &mut [u8], at: usize, number: u16) -> usize
    requires { at + 2 ≤ length out.old }
    ensures { Put (pair_bytes number) at out.old result out.new }
{
    put_bytes(out, at, &number.to_be_bytes())
}

// A number in decimal: the digits before the last, where there are some, and the last.
pub fn put_number(out: &mut [u8], at: usize, number: u16) -> usize
    requires { at + length (digits_of number) ≤ length out.old }
    ensures { Put (digits_of number) at out.old result out.new }
{
    if number < 10 {
        return put_byte(out, at, b'0' + number as u8);
    }
    let last = put_number(out, at, number / 10);
    put_byte(out, last, b'0' + (number % 10) as u8)
}

// A line of numbers, with CR LF behind it.
pub fn put_line(out: &mut [u8], at: usize, numbers: &[u16]) -> usize
    requires { at + length (line_text numbers.now) ≤ length out.old }
    ensures { Put (line_text numbers.now) at out.old result out.new }
{
    let mut end = at;
    for (i, number) in numbers.iter().enumerate() {
        if i > 0 {
            end = put_byte(out, end, b',');
        }
        end = put_number(out, end, *number);
    }
    put_bytes(out, end, b"\r\n")
}
