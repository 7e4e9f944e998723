// A number in digits.
ghost use Rattle.std.specs.Prelude.{◌≡◌, ◌+◌, ◌*◌, ◌<◌, SomeIff};
ghost use Rattle.text.specs.inside.Cursors.{number_of};

// A number with a digit more behind it, if that has 16 bits still.
fn with_digit(value: u16, digit: u8) -> Option<u16>
    ensures { SomeIff result (value * 10 + digit < 65536) (value * 10 + digit) }
{
    value.checked_mul(10)?.checked_add(u16::from(digit))
}

// None where a field is no number of 16 bits, however many digits it has.
pub fn number_of(field: &[u8]) -> Option<u16>
    ensures { result ≡ number_of field.now }
{
    if field.is_empty() {
        return None;
    }
    let mut value: u16 = 0;
    for &b in field {
        if !b.is_ascii_digit() {
            return None;
        }
        value = with_digit(value, b - b'0')?;
    }
    Some(value)
}
