// One part number: eight bytes, digits and capital letters first, then spaces.
ghost use Rattle.std.specs.Prelude.{◌≡◌, length, replicate};
ghost use Rattle.base.specs.Bytes.{same};
ghost use Rattle.catalogue.specs.Parts.{space, sign, front, well_formed};

// A digit or a capital letter.
fn is_sign(b: u8) -> bool
    ensures { result ≡ sign b }
{
    matches!(b, b'0'..=b'9' | b'A'..=b'Z')
}

// How many signs stand at the front.
pub fn signs_of(number: &[u8]) -> usize
    ensures { result ≡ length (front number.now) }
{
    for (i, b) in number.iter().enumerate() {
        if !is_sign(*b) {
            return i;
        }
    }
    number.len()
}

fn are_spaces(rest: &[u8]) -> bool
    ensures { result ≡ same rest.now (replicate (length rest.now) space) }
{
    rest.iter().all(|b| *b == b' ')
}

// At least one sign, and spaces to the right of the signs.
pub fn is_formed(number: &[u8]) -> bool
    ensures { result ≡ well_formed number.now }
{
    if number.len() != 8 {
        return false;
    }
    let signs = signs_of(number);
    signs > 0 && are_spaces(&number[signs..])
}
