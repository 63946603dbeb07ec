// Prints RR types: the name that a catalogue has for a type, or `TYPE` and its number.
ghost use Rattle.std.specs.Prelude.{◌^◌, ◌<◌, ◌≤◌, ◌≡◌, length};
ghost use Rattle.format.specs.Digits;
ghost use Rattle.format.specs.Catalogue.{type_text_in};
ghost use Rattle.format.specs.Rrtype.{type_text};
ghost use Rattle.buffer.specs.Writing.{Wrote};
ghost use Rattle.catalogue.specs.Known.{names_in};

use buffer::put_all;
use catalogue::Catalogue;
use digits::put_decimal;
use octets::integer::two;

// Writes `TYPE` and the number v.
fn plain(out: &mut [u8], at: usize, v: u64) -> usize
    requires place { at ≤ 2 ^ 31 }
    requires number { v < 65536 }
    ensures { Wrote out.old out.new at result (type_text v) }
{
    let m = put_all(out, at, b"TYPE");
    put_decimal(out, m, v)
}

// Writes the type with the number v.
pub fn number(out: &mut [u8], at: usize, c: &Catalogue<'_>, v: u64) -> usize
    requires place { at ≤ 2 ^ 31 }
    requires number { v < 65536 }
    ensures { Wrote out.old out.new at result (type_text_in (names_in c.now) v) }
{
    match c.name_of(v) {
        Some(name) => put_all(out, at, name),
        None => plain(out, at, v),
    }
}

// Writes the type in two octets.
pub fn field(out: &mut [u8], at: usize, c: &Catalogue<'_>, p: &[u8]) -> usize
    requires place { at < 2 ^ 30 }
    requires two { length p.now ≡ 2 }
    ensures { Wrote out.old out.new at result (type_text_in (names_in c.now) (Digits.number 256 p.now)) }
{
    number(out, at, c, two(p))
}
