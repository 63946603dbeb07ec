// Writers of decimal and hex digits, and of the octets of a number.
#![tactic(auto)]

ghost use Rattle.std.specs.Prelude.{◌≡◌, map, ◌+◌, ◌^◌, ◌<◌, ◌≤◌};
ghost use Rattle.format.specs.Digits.{digits, lower_digit};
ghost use Rattle.format.specs.Number.{decimal, fixed_decimal};
ghost use Rattle.buffer.specs.Writing.{Wrote};

use buffer::put;

// Writes a number in w digits to the base B, as octets from ZERO on; the last digit is stored first.
fn put_digits<const B: u64, const ZERO: u8>(out: &mut [u8], at: usize, w: usize, v: u64) -> usize
    requires base { 0 < B }
    requires octets { ZERO + B ≤ 256 }
    requires place { at < 2 ^ 33 }
    requires width { w < 2 ^ 32 }
    ensures { Wrote out.old out.new at result (map (λ d. ZERO + d) (digits B w v)) }
{
    let mut x = v;
    for k in (0..w).rev() {
        put(out, at + k, ZERO + (x % B) as u8);
        x /= B;
    }
    at + w
}

// Writes a number in w decimal digits.
pub fn put_fixed(out: &mut [u8], at: usize, w: usize, v: u64) -> usize
    requires { (at < 2 ^ 33) × (w < 2 ^ 32) }
    ensures { Wrote out.old out.new at result (fixed_decimal w v) }
{
    put_digits::<10, b'0'>(out, at, w, v)
}

// Writes a number in w octets, big-endian.
pub fn put_octets(out: &mut [u8], at: usize, w: usize, v: u64) -> usize
    requires { (at < 2 ^ 32) × (w ≤ 8) }
    ensures { Wrote out.old out.new at result (digits 256 w v) }
{
    put_digits::<256, 0>(out, at, w, v)
}

// The hex digit d in lower case.
pub fn hex_digit(d: u8) -> u8
    requires { d < 16 }
    ensures { result ≡ lower_digit d }
{
    if d < 10 { b'0' + d } else { b'a' + (d - 10) }
}

// Writes the two hex digits of an octet in lower case.
pub fn put_hex_octet(out: &mut [u8], at: usize, b: u8) -> usize
    requires { at < 2 ^ 34 }
    ensures { Wrote out.old out.new at result (map lower_digit (digits 16 2 b)) }
{
    put(out, at, hex_digit(b / 16 % 16));
    put(out, at + 1, hex_digit(b % 16));
    at + 2
}

// How many digits a number has.
fn digit_count(v: u64) -> usize
    requires { v < 10 ^ 10 }
    ensures small { result ≤ 10 }
    ensures digits { fixed_decimal result v ≡ decimal v }
{
    if v < 10 {
        return 1;
    }
    v.ilog10() as usize + 1
}

// Writes a number in decimal without leading zeros.
pub fn put_decimal(out: &mut [u8], at: usize, v: u64) -> usize
    requires { (at < 2 ^ 32) × (v < 10 ^ 10) }
    ensures { Wrote out.old out.new at result (decimal v) }
{
    put_fixed(out, at, digit_count(v), v)
}
