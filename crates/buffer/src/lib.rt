// Writers of text. Each stores its text at a place in the buffer, drops what does not fit, and returns the place after the
// whole text: on an empty buffer it measures.
#![tactic(auto)]

pub mod lack;

ghost use Rattle.std.specs.Prelude.{◌≡◌, [], ◌∷◌, ◌+◌, ◌-◌, ◌/◌, ◌^◌, ◌<◌, ◌≤◌, min, length, set};
ghost use Rattle.buffer.specs.Writing.{Wrote};

pub use lack::Lack;

// Stores one octet at a place, or nothing if the place is past the end.
pub fn put(out: &mut [u8], i: usize, b: u8)
    ensures { out.new ≡ set out.old i b }
{
    if i < out.len() {
        out[i] = b;
    }
}

// How many of `count` pieces of w octets each have room from `at` on in a buffer of `len` octets.
pub fn fitting(len: usize, at: usize, w: usize, count: usize) -> usize
    requires { 0 < w }
    ensures { result ≡ min count ((len - at) / w) }
{
    count.min(len.saturating_sub(at) / w)
}

// Writes one octet.
pub fn put_octet(out: &mut [u8], at: usize, b: u8) -> usize
    requires { at < 2 ^ 32 }
    ensures { Wrote out.old out.new at result (b ∷ []) }
{
    put(out, at, b);
    at + 1
}

// Writes a whole list of octets for which there is room: without a test at each octet, many are stored at once. A copy by the
// library is a call, and slower for the short texts that most are.
fn store_all(out: &mut [u8], at: usize, xs: &[u8]) -> usize
    requires { at + length xs.now ≤ length out.old }
    ensures { Wrote out.old out.new at result xs.now }
{
    for (i, b) in xs.iter().enumerate() {
        out[at + i] = *b;
    }
    at + xs.len()
}

// Writes a whole list of octets.
pub fn put_all(out: &mut [u8], at: usize, xs: &[u8]) -> usize
    requires at { at < 2 ^ 32 }
    requires octets { length xs.now < 2 ^ 32 }
    ensures { Wrote out.old out.new at result xs.now }
{
    if at + xs.len() <= out.len() {
        return store_all(out, at, xs);
    }
    for (i, b) in xs.iter().enumerate() {
        put(out, at + i, *b);
    }
    at + xs.len()
}
