// The greatest common divisor and the least common multiple.
ghost use Rattle.std.specs.Prelude.{◌≡◌, ℕ, ◌<◌, ◌≤◌};
ghost use Rattle.request.specs.Euclid.{gcd_of, lcm_of};

// The remainder falls at each call.
fn gcd(a: u32, b: u32) -> u32
    ensures { result ≡ gcd_of a b }
{
    if b == 0 { a } else { gcd(b, a % b) }
}

// The least common multiple of two numbers, of which the second is not 0. It divides first, so that no product is larger than it need be.
pub(crate) fn lcm(a: u32, b: u32) -> u32
    requires { (a ≤ 4096) × (b ≤ 4096) × (0 < b) }
    ensures { result ≡ lcm_of a b }
{
    a / gcd(a, b) * b
}
