// Reads strings of octets.
ghost use Rattle.std.specs.Prelude.{◌+◌, ◌^◌, ◌<◌, ◌≤◌, ◌≡◌, length, take, drop};
ghost use Rattle.format.specs.Lists.{span};
ghost use Rattle.format.specs.Token.{quoted};
ghost use Rattle.format.specs.Text.{string_value, read_string, read_raw};
ghost use Rattle.buffer.specs.Writing.{Wrote, Values};
ghost use Rattle.escape.specs.Escapes.{no_escape};
ghost use Rattle.text.specs.Text.{token_of};

use crate::run::{Plain, copy_far, copy_near};
use buffer::put;

// The octets of a token that begin no escape.
struct Unescaped;

impl Plain for Unescaped {
    ghost plain = { no_escape };

    fn is_plain(b: u8) -> bool {
        b != b'\\'
    }

    fn begins(_: &[u8]) -> bool {
        true
    }
}

// Writes the run of octets from j on that begin no escape, and returns how many there are. Where the next escape follows at
// once, as it often does after an escape, nothing is searched or copied.
fn copy_run(out: &mut [u8], at: usize, t: &[u8], j: usize) -> usize
    requires place { at < 2 ^ 32 }
    requires octets { length t.now < 2 ^ 32 }
    ensures count { result ≡ length (span no_escape (drop j t.now)).front }
    ensures wrote { Wrote out.old out.new at (at + result) (take result (drop j t.now)) }
{
    if t.len() <= j || t[j] == b'\\' {
        return 0;
    }
    copy_near::<Unescaped>(out, at, &t[j..])
}

// Reads the value of a quoted token's octets, of which the first begins an escape.
fn escaped(out: &mut [u8], at: usize, t: &[u8]) -> Option<usize>
    requires place { at + length t.now < 2 ^ 31 }
    requires escape { length (span no_escape t.now).front ≡ 0 }
    ensures { Values out.old out.new at result (string_value (quoted t.now)) }
{
    let mut m = at;
    let mut j = 0;
    while j < t.len() {
        let (b, k) = escape::read::read(&t[j + 1..])?;
        put(out, m, b);
        let n = copy_run(out, m + 1, t, j + 1 + k);
        m += 1 + n;
        j += 1 + k + n;
    }
    Some(m)
}

// Reads the value of a token's octets.
fn value(out: &mut [u8], at: usize, t: &[u8], quoted: bool) -> Option<usize>
    requires place { at ≤ 2 ^ 30 }
    requires text { length t.now ≤ 1048576 }
    ensures { Values out.old out.new at result (string_value (token_of quoted t.now)) }
{
    let j = copy_far::<Unescaped>(out, at, t);
    if t.len() <= j {
        return Some(at + j);
    }
    if quoted {
        return escaped(out, at + j, &t[j..]);
    }
    None
}

// Reads the value of the token with the octets t, quoted or bare, and stores it after its count.
pub fn string(out: &mut [u8], at: usize, t: &[u8], quoted: bool) -> Option<usize>
    requires place { at < 2 ^ 30 }
    requires text { length t.now ≤ 1048576 }
    ensures { Values out.old out.new at result (read_string (token_of quoted t.now)) }
{
    let m = value(out, at + 1, t, quoted)?;
    let count = u8::try_from(m - (at + 1)).ok()?;
    put(out, at, count);
    Some(m)
}

// The same without a count; the value must not be empty.
pub fn raw(out: &mut [u8], at: usize, t: &[u8], quoted: bool) -> Option<usize>
    requires place { at < 2 ^ 30 }
    requires text { length t.now ≤ 1048576 }
    ensures { Values out.old out.new at result (read_raw (token_of quoted t.now)) }
{
    let m = value(out, at, t, quoted)?;
    if m <= at {
        return None;
    }
    Some(m)
}
