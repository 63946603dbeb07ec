// Integers of a fixed number of octets.
ghost use Rattle.std.specs.Prelude.{◌+◌, ◌*◌, ◌^◌, ◌<◌, ◌≤◌, ◌≡◌, length, get_or};
ghost use Rattle.format.specs.Digits;

// The number in the first two octets, big-endian.
pub fn two(p: &[u8]) -> u64
    requires { 2 ≤ length p.now }
    ensures value { result ≡ get_or p.now 0 0 * 256 + get_or p.now 1 0 }
    ensures small { result < 65536 }
{
    u64::from(p[0]) * 256 + u64::from(p[1])
}

// The number in the octets, at most four, big-endian.
pub fn number(p: &[u8]) -> u64
    requires { length p.now ≤ 4 }
    ensures value { result ≡ Digits.number 256 p.now }
    ensures small { result < 2 ^ 32 }
{
    let mut v: u64 = 0;
    for b in p {
        v = v * 256 + u64::from(*b);
    }
    v
}
