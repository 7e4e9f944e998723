// The kinds of files, and where their device records stand.
ghost use Rattle.std.specs.Prelude.{◌≡◌, ◌≤◌, length};
ghost use Rattle.tables.specs.declared.Kind.TheVariants.{Third};
ghost use Rattle.tables.specs.Records.{device_size};
ghost use Rattle.tables.specs.Layout.{kind_of, marker, device_place};

use crate::Kind;

// FF 02 begins a file of the second kind, FF 03 one of the third: whatever else begins with FF is of the first, and refused.
pub fn kind_of(s: &[u8]) -> Kind
    ensures { result ≡ kind_of s.now }
{
    match s {
        [255, 2, ..] => Kind::Second,
        [255, 3, ..] => Kind::Third,
        _ => Kind::First,
    }
}

// How many bytes stand before the horizon field.
pub fn marker_size(kind: Kind) -> usize
    ensures { result ≡ length (marker kind) }
{
    match kind {
        Kind::First => 0,
        Kind::Second | Kind::Third => 2,
    }
}

// How many bytes a record of the third kind has: two for each power, of which there are no more than four. Its level count may not be there.
fn third_size(s: &[u8], at: usize) -> usize
    ensures { result ≡ device_size Third s.now at }
{
    if s.len().saturating_sub(at) < 6 {
        return 6;
    }
    6 + 2 * usize::from(s[at + 5]).min(4)
}

// How many bytes the device record at a place has.
pub fn device_size(s: &[u8], kind: Kind, at: usize) -> usize
    ensures { result ≡ device_size kind s.now at }
{
    match kind {
        Kind::First => 7,
        Kind::Second => 10,
        Kind::Third => third_size(s, at),
    }
}

// Where device n's record stands, or what follows the devices: each record stands after the one before it.
pub fn device_place(s: &[u8], kind: Kind, n: usize) -> usize
    requires { device_place kind s.now n ≤ length s.now }
    ensures { result ≡ device_place kind s.now n }
{
    let mut at = 3;
    for _k in 0..n {
        at += device_size(s, kind, at);
    }
    at
}
