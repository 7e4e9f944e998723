// Numbers as bytes, the high byte first.
ghost use Rattle.std.specs.Prelude.{◌≡◌, ◌++◌, ◌*◌, ◌≤◌, length, drop};
ghost use Rattle.calls.specs.Bytes.{big, spread, starts_in};

use base::pair_at;

// Fills a part with the last bytes of a number.
pub fn put(part: &mut [u8], x: u64)
    ensures { part.new ≡ big (length part.old) x }
{
    let mut left = x;
    for i in (0..part.len()).rev() {
        part[i] = (left % 256) as u8;
        left /= 256;
    }
}

// The start times of a list of bytes, one for each place of the list to fill.
pub fn get_starts(bytes: &[u8], starts: &mut [u16])
    requires { length starts.old * 2 ≤ length bytes.now }
    ensures { starts.new ≡ starts_in bytes.now (length starts.old) }
{
    for (j, start) in starts.iter_mut().enumerate() {
        *start = pair_at(bytes, j * 2);
    }
}

// Start times as two bytes each, from the first byte on.
pub fn put_starts(starts: &[u16], bytes: &mut [u8])
    requires { length starts.now * 2 ≤ length bytes.old }
    ensures { bytes.new ≡ spread starts.now ++ drop (length starts.now * 2) bytes.old }
{
    for (j, start) in starts.iter().enumerate() {
        let at = j * 2;
        bytes[at..at + 2].copy_from_slice(&start.to_be_bytes());
    }
}
