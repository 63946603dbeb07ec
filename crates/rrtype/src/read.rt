// Reads RR types: `TYPE` and a number, or a name that a catalogue has.
ghost use Rattle.std.specs.Prelude.{◌+◌, ◌^◌, ◌<◌, ◌≤◌, ◌≡◌, true, false, length, take, drop, IfSome, IfNone};
ghost use Rattle.format.specs.Octets.{ascii, same_word};
ghost use Rattle.format.specs.Number.{decimal_of};
ghost use Rattle.format.specs.Rrtype.{type_number};
ghost use Rattle.format.specs.Catalogue.{type_number_in, read_type_in};
ghost use Rattle.std.specs.Prelude.{Some};
ghost use Rattle.buffer.specs.Writing.{Values};
ghost use Rattle.catalogue.specs.Known.{names_in};

use catalogue::Catalogue;
use number::read::{decimal_below, value};

// What follows the word `TYPE`, letters' case ignored, if the octets begin with it.
fn after_type(t: &[u8]) -> Option<&[u8]>
    ensures word { IfSome result (λ d. same_word (take 4 t.now) (ascii "TYPE") ≡ true) }
    ensures rest { IfSome result (λ d. d.now ≡ drop 4 t.now) }
    ensures other { IfNone result (same_word (take 4 t.now) (ascii "TYPE") ≡ false) }
{
    match t {
        [
            b'T' | b't',
            b'Y' | b'y',
            b'P' | b'p',
            b'E' | b'e',
            digits @ ..,
        ] => Some(digits),
        _ => None,
    }
}

// The number of the digits that the octets begin with, at most five, and how many they are.
fn five_digits(t: &[u8]) -> (u64, usize)
    requires { 5 ≤ length t.now }
    ensures value { 0 < result.1 → decimal_of (take result.1 t.now) ≡ Some result.0 }
    ensures few { result.1 ≤ 5 }
{
    let mut v: u64 = 0;
    for (n, b) in t[..5].iter().enumerate() {
        if !b.is_ascii_digit() {
            return (v, n);
        }
        v = v * 10 + u64::from(*b - b'0');
    }
    (v, 5)
}

// The type that the octets begin with, if it has at most five digits, and how many octets it takes: it is read in one pass.
pub fn plain_front(t: &[u8]) -> Option<(u64, usize)>
    requires { 9 ≤ length t.now }
    ensures value { IfSome result (λ r. type_number (take r.1 t.now) ≡ Some r.0) }
    ensures within { IfSome result (λ r. r.1 ≤ length t.now) }
{
    let (v, n) = five_digits(after_type(t)?);
    if n == 0 || 65535 < v {
        return None;
    }
    Some((v, 4 + n))
}

// The number of the type that is `TYPE` and digits.
pub fn plain(t: &[u8]) -> Option<u64>
    ensures { result ≡ type_number t.now }
{
    decimal_below(65536, after_type(t)?)
}

// The number of the type, in either form. No name is `TYPE` and digits, so that form is tried first.
pub fn number(c: &Catalogue<'_>, t: &[u8]) -> Option<u64>
    ensures { result ≡ type_number_in (names_in c.now) t.now }
{
    match plain(t) {
        Some(v) => Some(v),
        None => c.named(t),
    }
}

// Reads a type into two octets.
pub fn field(out: &mut [u8], at: usize, c: &Catalogue<'_>, t: &[u8]) -> Option<usize>
    requires { at < 2 ^ 30 }
    ensures { Values out.old out.new at result (read_type_in (names_in c.now) t.now) }
{
    value(out, at, 2, number(c, t))
}
