// Prints strings of octets, in quotes.
ghost use Rattle.std.specs.Prelude.{◌^◌, ◌<◌, ◌≤◌, ◌≡◌, false, map, length};
ghost use Rattle.format.specs.Lists.{flat_map, parted};
ghost use Rattle.format.specs.Octets.{ascii};
ghost use Rattle.format.specs.Wire.{taken, took, string_count};
ghost use Rattle.format.specs.Text.{pieces, string_escape, string_text};
ghost use Rattle.buffer.specs.Writing.{Wrote};
ghost use Rattle.text.specs.Plain.{plain_text};

use crate::run::{Plain, copy_far};
use buffer::put_octet;
use escape::print::put_escaped_string;

// The octets of a string that are printed as they are.
struct Printed;

impl Plain for Printed {
    ghost plain = { plain_text };

    fn is_plain(b: u8) -> bool {
        b' ' <= b && b != b'"' && b <= b'~' && b != b'\\'
    }

    // The first, second and fourth are tested.
    fn begins(t: &[u8]) -> bool {
        Self::is_plain(t[0]) && Self::is_plain(t[1]) && Self::is_plain(t[3])
    }
}

// Writes the octets of p, escaped; those that stand for themselves are copied many at once.
fn escaped(out: &mut [u8], at: usize, p: &[u8]) -> usize
    requires place { at ≤ 2 ^ 31 }
    requires octets { length p.now ≤ 65535 }
    ensures { Wrote out.old out.new at result (flat_map string_escape p.now) }
{
    let mut j = copy_far::<Printed>(out, at, p);
    let mut m = at + j;
    while j < p.len() {
        let a = put_escaped_string(out, m, p[j]);
        let n = copy_far::<Printed>(out, a, &p[j + 1..]);
        m = a + n;
        j += 1 + n;
    }
    m
}

// Writes the octets of p as one string.
pub fn string(out: &mut [u8], at: usize, p: &[u8]) -> usize
    requires place { at < 2 ^ 31 }
    requires octets { length p.now ≤ 65535 }
    ensures { Wrote out.old out.new at result (string_text p.now) }
{
    let a = put_octet(out, at, b'"');
    let b = escaped(out, a, p);
    put_octet(out, b, b'"')
}

// Writes the strings that stand in p, each after its count, with a space between them.
pub fn strings(out: &mut [u8], at: usize, p: &[u8]) -> usize
    requires place { at < 2 ^ 30 }
    requires octets { length p.now ≤ 65535 }
    requires strings { taken (string_count false) p.now ≡ took (length p.now) }
    ensures { Wrote out.old out.new at result (parted (ascii " ") (map string_text (pieces p.now))) }
{
    let mut j = 1 + usize::from(p[0]);
    let mut m = string(out, at, &p[1..j]);
    while j < p.len() {
        let k = j + 1 + usize::from(p[j]);
        let a = put_octet(out, m, b' ');
        m = string(out, a, &p[j + 1..k]);
        j = k;
    }
    m
}
