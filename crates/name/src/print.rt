// Prints names.
ghost use Rattle.std.specs.Prelude.{◌^◌, ◌<◌, ◌≤◌, ◌≡◌, true, map, length};
ghost use Rattle.format.specs.Lists.{flat_map, parted};
ghost use Rattle.format.specs.Octets.{ascii};
ghost use Rattle.format.specs.Wire.{taken, took, label_length};
ghost use Rattle.format.specs.Text.{pieces};
ghost use Rattle.format.specs.Name.{name_escape, name_text};
ghost use Rattle.buffer.specs.Writing.{Wrote};

use buffer::put_octet;
use escape::print::put_escaped_name;

// Writes the octets of p, escaped.
fn escaped(out: &mut [u8], at: usize, p: &[u8]) -> usize
    requires place { at ≤ 2 ^ 31 }
    requires octets { length p.now ≤ 65535 }
    ensures { Wrote out.old out.new at result (flat_map name_escape p.now) }
{
    let mut m = at;
    for b in p {
        m = put_escaped_name(out, m, *b);
    }
    m
}

// Writes the labels of the name p, a dot after each.
fn labels(out: &mut [u8], at: usize, p: &[u8]) -> usize
    requires place { at < 2 ^ 30 }
    requires some { 0 < length p.now }
    requires octets { length p.now ≤ 65535 }
    requires name { taken (label_length true 0) p.now ≡ took (length p.now) }
    ensures { Wrote out.old out.new at result (parted (ascii ".") (map (flat_map name_escape) (pieces p.now))) }
{
    let mut m = at;
    let mut j = 0;
    while j + 1 < p.len() {
        let k = j + 1 + usize::from(p[j]);
        let a = escaped(out, m, &p[j + 1..k]);
        m = put_octet(out, a, b'.');
        j = k;
    }
    m
}

// Writes the name p, or nothing if there are no octets.
pub fn name(out: &mut [u8], at: usize, p: &[u8]) -> usize
    requires place { at < 2 ^ 30 }
    requires octets { length p.now ≤ 65535 }
    requires name { taken (label_length true 0) p.now ≡ took (length p.now) }
    ensures { Wrote out.old out.new at result (name_text p.now) }
{
    match p {
        [] => at,
        [_] => put_octet(out, at, b'.'),
        _ => labels(out, at, p),
    }
}
