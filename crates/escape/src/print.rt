// Writers of one octet of a name or a string, escaped if needed.
ghost use Rattle.std.specs.Prelude.{cond, ◌≡◌, [], ◌∷◌, ◌^◌, ◌<◌};
ghost use Rattle.format.specs.Number.{fixed_decimal};
ghost use Rattle.format.specs.Octets.{ascii, among, in_range};
ghost use Rattle.format.specs.Name.{name_escape};
ghost use Rattle.format.specs.Text.{string_escape};
ghost use Rattle.buffer.specs.Writing.{Wrote};

use buffer::{put, put_octet};
use digits::put_fixed;

// Whether an octet is written after a backslash in a name's text.
fn name_special(b: u8) -> bool
    ensures { result ≡ among b (ascii ".\\\"';()@$") }
{
    matches!(
        b,
        b'.' | b'\\' | b'"' | b'\'' | b';' | b'(' | b')' | b'@' | b'$'
    )
}

// Writes a backslash and the octet.
fn put_slashed(out: &mut [u8], at: usize, b: u8) -> usize
    requires { at < 2 ^ 32 }
    ensures { Wrote out.old out.new at result (92 ∷ b ∷ []) }
{
    put(out, at, b'\\');
    put(out, at + 1, b);
    at + 2
}

// Writes a backslash and the octet's three decimal digits.
fn put_ddd(out: &mut [u8], at: usize, b: u8) -> usize
    requires { at < 2 ^ 32 }
    ensures { Wrote out.old out.new at result (92 ∷ fixed_decimal 3 b) }
{
    let m = put_octet(out, at, b'\\');
    put_fixed(out, m, 3, u64::from(b))
}

// Writes an octet from lo to 7E hex as it is, any other as a backslash and three digits.
fn put_shown(out: &mut [u8], at: usize, lo: u8, b: u8) -> usize
    requires { at < 2 ^ 32 }
    ensures { Wrote out.old out.new at result (cond (in_range lo 0x7E b) (b ∷ []) (92 ∷ fixed_decimal 3 b)) }
{
    if b < lo || b'~' < b {
        return put_ddd(out, at, b);
    }
    put_octet(out, at, b)
}

// Writes an octet of a label in a name's text.
pub fn put_escaped_name(out: &mut [u8], at: usize, b: u8) -> usize
    requires { at < 2 ^ 32 }
    ensures { Wrote out.old out.new at result (name_escape b) }
{
    if name_special(b) {
        return put_slashed(out, at, b);
    }
    put_shown(out, at, b'!', b)
}

// Writes an octet of a quoted string.
pub fn put_escaped_string(out: &mut [u8], at: usize, b: u8) -> usize
    requires { at < 2 ^ 32 }
    ensures { Wrote out.old out.new at result (string_escape b) }
{
    if b == b'"' || b == b'\\' {
        return put_slashed(out, at, b);
    }
    put_shown(out, at, b' ', b)
}
