// Prints bitmaps of RR types: blocks, each of a window, a count and octets.
ghost use Rattle.std.specs.Prelude.{◌+◌, ◌*◌, ◌^◌, ◌<◌, ◌≤◌, ◌≡◌, [], ◌∷◌, ltb, length};
ghost use Rattle.format.specs.Wire.{taken, took, window};
ghost use Rattle.format.specs.Digits.{digits};
ghost use Rattle.format.specs.Catalogue.{type_text_in};
ghost use Rattle.format.specs.Bitmap.{set_bits, at_octets, types_from, bitmap_text};
ghost use Rattle.buffer.specs.Writing.{Wrote};
ghost use Rattle.catalogue.specs.Known.{names_in};
ghost use Rattle.bitmap.specs.Types.{types_text};

use buffer::put_octet;
use catalogue::Catalogue;

// Writes a type, with a space before it if types were written between `start` and `at`.
fn put_type(out: &mut [u8], at: usize, start: usize, c: &Catalogue<'_>, v: u64) -> usize
    requires order { start ≤ at }
    requires place { at < 2 ^ 31 }
    requires type_no { v < 65536 }
    ensures { Wrote out.old out.new at result (types_text (type_text_in (names_in c.now)) (ltb start at) (v ∷ [])) }
{
    if start < at {
        let m = put_octet(out, at, b' ');
        return rrtype::print::number(out, m, c, v);
    }
    rrtype::print::number(out, at, c, v)
}

// Writes a type if its bit is set.
fn put_if(out: &mut [u8], at: usize, start: usize, c: &Catalogue<'_>, v: u64, bit: u8) -> usize
    requires order { start ≤ at }
    requires place { at < 2 ^ 31 }
    requires type_no { v < 65536 }
    ensures { Wrote out.old out.new at result (types_text (type_text_in (names_in c.now)) (ltb start at) (set_bits v (bit ∷ []))) }
{
    if bit == 0 {
        return at;
    }
    put_type(out, at, start, c, v)
}

// Writes the types of the set bits of an octet, whose highest bit is type v.
fn octet(out: &mut [u8], at: usize, start: usize, c: &Catalogue<'_>, v: u64, x: u8) -> usize
    requires order { start ≤ at }
    requires place { at + 512 < 2 ^ 31 }
    requires type_no { v + 8 ≤ 65536 }
    ensures { Wrote out.old out.new at result (types_text (type_text_in (names_in c.now)) (ltb start at) (set_bits v (digits 2 8 x))) }
{
    let mut m = at;
    let mut t = v;
    let mut y = x;
    while 0 < y {
        m = put_if(out, m, start, c, t, y / 128);
        y = y % 128 * 2;
        t += 1;
    }
    m
}

// Writes the types of a block's octets; the first bit of the first octet is type v.
fn block(out: &mut [u8], at: usize, start: usize, c: &Catalogue<'_>, p: &[u8], v: u64) -> usize
    requires order { start ≤ at }
    requires place { at + 2 ^ 23 < 2 ^ 31 }
    requires type_no { v + 8 * length p.now ≤ 65536 }
    ensures { Wrote out.old out.new at result (types_text (type_text_in (names_in c.now)) (ltb start at) (types_from (at_octets v (length p.now)) p.now)) }
{
    let mut m = at;
    let mut t = v;
    for x in p {
        m = octet(out, m, start, c, t, *x);
        t += 8;
    }
    m
}

// Writes the types of whole blocks, in rising order, with spaces between them.
pub fn field(out: &mut [u8], at: usize, c: &Catalogue<'_>, p: &[u8]) -> usize
    requires place { at < 2 ^ 30 }
    requires short { length p.now ≤ 65535 }
    requires whole { taken (window 0) p.now ≡ took (length p.now) }
    ensures { Wrote out.old out.new at result (bitmap_text (type_text_in (names_in c.now)) p.now) }
{
    let mut m = at;
    let mut j = 0;
    while j < p.len() {
        let k = j + 2 + usize::from(p[j + 1]);
        m = block(out, m, at, c, &p[j + 2..k], u64::from(p[j]) * 256);
        j = k;
    }
    m
}
