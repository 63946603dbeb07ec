// The run of octets at the front of a list that stand for themselves, found one by one or in blocks, and copied at once.
ghost use Rattle.std.specs.Prelude.{◌+◌, ◌^◌, ◌<◌, ◌≤◌, ◌≡◌, ℕ, Bool, true, length, take};
ghost use Rattle.format.specs.Lists.{all_of, span};
ghost use Rattle.buffer.specs.Writing.{Wrote};

use buffer::put_all;

// Which octets stand for themselves.
pub trait Plain {
    ghost plain: { ℕ → Bool };

    fn is_plain(b: u8) -> bool
        ensures { result ≡ plain b };

    // Whether the octets look as if the first 32 stand for themselves, so that it is worth a test.
    fn begins(t: &[u8]) -> bool
        requires { 4 ≤ length t.now };
}

// How many octets from the first on stand for themselves; they are tested one by one.
pub fn near<P: Plain>(t: &[u8]) -> usize
    ensures { result ≡ length (span P.plain t.now).front }
{
    for (i, b) in t.iter().enumerate() {
        if !P::is_plain(*b) {
            return i;
        }
    }
    t.len()
}

// Whether all octets stand for themselves. The loop has no early exit, so that many are tested at once.
fn all_plain<P: Plain>(t: &[u8]) -> bool
    ensures { result ≡ all_of P.plain t.now }
{
    let mut all = true;
    for b in t {
        all &= P::is_plain(*b);
    }
    all
}

// Whether there are at least 32 octets and the first 32 stand for themselves. It may deny that although they do.
fn block<P: Plain>(t: &[u8]) -> bool
    ensures there { result ≡ true → 32 ≤ length t.now }
    ensures plain { result ≡ true → all_of P.plain (take 32 t.now) ≡ true }
{
    32 <= t.len() && P::begins(t) && all_plain::<P>(&t[..32])
}

// The same number as `near` finds, found quickly if it is large.
pub fn far<P: Plain>(t: &[u8]) -> usize
    ensures { result ≡ length (span P.plain t.now).front }
{
    let mut j = 0;
    while block::<P>(&t[j..]) {
        j += 32;
    }
    j + near::<P>(&t[j..])
}

// Writes the run of octets that stand for themselves, and returns how many there are.
pub fn copy_far<P: Plain>(out: &mut [u8], at: usize, t: &[u8]) -> usize
    requires place { at < 2 ^ 32 }
    requires octets { length t.now < 2 ^ 32 }
    ensures count { result ≡ length (span P.plain t.now).front }
    ensures wrote { Wrote out.old out.new at (at + result) (take result t.now) }
{
    let n = far::<P>(t);
    put_all(out, at, &t[..n]);
    n
}

// The same, for where the run is likely to be short.
pub fn copy_near<P: Plain>(out: &mut [u8], at: usize, t: &[u8]) -> usize
    requires place { at < 2 ^ 32 }
    requires octets { length t.now < 2 ^ 32 }
    ensures count { result ≡ length (span P.plain t.now).front }
    ensures wrote { Wrote out.old out.new at (at + result) (take result t.now) }
{
    let n = near::<P>(t);
    put_all(out, at, &t[..n]);
    n
}
