// The tokens of a text, one after another.
#![tactic(auto)]

ghost use Rattle.std.specs.Prelude.{◌<◌, ◌≤◌, ◌≡◌, ◌&&◌, length, take, drop, leb, Some};
ghost use Rattle.format.specs.Lists.{all_of, span};
ghost use Rattle.format.specs.Octets.{in_range};
ghost use Rattle.format.specs.Token.{text_octet, scanned, tokens};
ghost use Rattle.tokens.specs.Tokens.{tokens_by, Within, inside, standing, front_end, escapes, parted_off, closes, ended_at, From};

use octets::Class;

// A token: a bare one from i to e; a quoted one, whose octets between the quotes stand from i to e; or one with a fault inside.
#[derive(Clone, Copy)]
pub enum Next {
    Bare(usize, usize),
    Quoted(usize, usize),
    Broken,
}

// Whether an octet may stand in a text: tab and 20 to 7E hex.
fn is_text(b: u8) -> bool
    ensures { result ≡ text_octet b }
{
    b == b'\t' || b' ' <= b && b <= b'~'
}

// Whether an octet lies from lo to hi.
fn is_between(lo: u8, hi: u8, b: u8) -> bool
    ensures { result ≡ in_range lo hi b }
{
    lo <= b && b <= hi
}

// Whether an octet stands for itself in a bare token. Tests for equality in a row would be compiled to a bit test behind a
// branch that letters take either way, which is slow: so other tests stand between them.
fn stands_bare(b: u8) -> bool
    ensures { result ≡ standing 0 b }
{
    b != b'"' && b'!' <= b && b != b';' && b <= b'~' && b != b'\\' && !is_between(b'\'', b')', b)
}

// The same in a token quoted by q, or in a bare one if q is 0.
fn stands(q: u8, b: u8) -> bool
    ensures { result ≡ standing q b }
{
    if q == 0 {
        return stands_bare(b);
    }
    if b == q {
        return false;
    }
    if b < b' ' {
        return b == b'\t';
    }
    b <= b'~' && b != b'\\'
}

// How many octets from the first on stand for themselves.
fn skip_all(t: &[u8], q: u8) -> usize
    ensures { result ≡ length (span (standing q) t.now).front }
{
    for (i, b) in t.iter().enumerate() {
        if !stands(q, *b) {
            return i;
        }
    }
    t.len()
}

// Whether there are at least 64 octets and the first 64 stand for themselves. The loop has no early exit, so that many are
// tested at once.
fn block_stands(t: &[u8], q: u8) -> bool
    ensures { result ≡ leb 64 (length t.now) && all_of (standing q) (take 64 t.now) }
{
    if t.len() < 64 {
        return false;
    }
    let mut all = true;
    for b in &t[..64] {
        all &= stands(q, *b);
    }
    all
}

// The end of the run of octets from i on that stand for themselves, found quickly if the run is long. It is kept out of `skip`,
// so that what most runs need is compiled for each quote where it is called.
#[inline(never)]
fn skip_long(t: &[u8], i: usize, q: u8) -> usize
    requires { i ≤ length t.now }
    ensures { result ≡ front_end q t.now i (length t.now) }
{
    let mut j = i;
    while block_stands(&t[j..], q) {
        j += 64;
    }
    j + skip_all(&t[j..], q)
}

// The place 32 octets after i, or the end of the text.
fn near(t: &[u8], i: usize) -> usize
    requires { i ≤ length t.now }
    ensures at_least { i ≤ result }
    ensures within { result ≤ length t.now }
{
    if t.len() - i < 32 { t.len() } else { i + 32 }
}

// The end of the run of octets from i on that stand for themselves.
#[inline(always)]
fn skip(t: &[u8], i: usize, q: u8) -> usize
    requires { i ≤ length t.now }
    ensures { result ≡ front_end q t.now i (length t.now) }
{
    let e = near(t, i);
    let j = i + skip_all(&t[i..e], q);
    if j < e {
        return j;
    }
    skip_long(t, e, q)
}

// The same after an escape, where the next one often follows at once.
fn skip_after(t: &[u8], i: usize, q: u8) -> usize
    requires { i ≤ length t.now }
    ensures { result ≡ front_end q t.now i (length t.now) }
{
    if i < t.len() && t[i] == b'\\' {
        return i;
    }
    skip(t, i, q)
}

// Whether a backslash stands at j, before an octet that it takes into the token.
fn escape_at(t: &[u8], j: usize) -> bool
    requires { j ≤ length t.now }
    ensures { result ≡ escapes (drop j t.now) }
{
    if t.len() - j < 2 || t[j] != b'\\' {
        return false;
    }
    is_text(t[j + 1])
}

// Whether a blank stands at j, or the text ends.
pub fn parted_at(t: &[u8], j: usize) -> bool
    ensures { result ≡ parted_off (drop j t.now) }
{
    t.len() <= j || Class::Blank.has(t[j])
}

// Whether the quote q stands at j and closes the token.
fn closes_at(t: &[u8], j: usize, q: u8) -> bool
    ensures { result ≡ closes q (drop j t.now) }
{
    j < t.len() && t[j] == q && parted_at(t, j + 1)
}

// The token whose octets stand from i to j, if it properly ends there, else a broken one.
fn ended(t: &[u8], i: usize, j: usize, q: u8) -> Next
    ensures { result ≡ ended_at t.now i q j }
{
    if q == 0 {
        if parted_at(t, j) {
            return Next::Bare(i, j);
        }
        return Next::Broken;
    }
    if closes_at(t, j, q) {
        return Next::Quoted(i, j);
    }
    Next::Broken
}

// The token whose octets start at i: after the quote q, or bare if q is 0.
#[inline(always)]
fn token(t: &[u8], i: usize, q: u8) -> Next
    requires place { i ≤ length t.now }
    requires quote { q < 92 }
    ensures tokens { tokens_by t.now (Some result) ≡ scanned (inside q) (drop i t.now) }
    ensures from { From t.now q i result }
{
    let mut j = skip(t, i, q);
    while escape_at(t, j) {
        j = skip_after(t, j + 2, q);
    }
    ended(t, i, j, q)
}

// The next token from i on, if one is left. The scan is called with each quote written out, so that it is compiled for it.
pub fn next_token(t: &[u8], i: usize) -> Option<Next>
    requires place { i ≤ length t.now }
    requires text { length t.now ≤ 1048576 }
    ensures tokens { tokens_by t.now result ≡ tokens (drop i t.now) }
    ensures within { Within t.now i result }
{
    let a = i + octets::skip_far(&t[i..], Class::Blank);
    let b = *t.get(a)?;
    if b == b'"' {
        return Some(token(t, a + 1, b'"'));
    }
    if b == b'\'' {
        return Some(token(t, a + 1, b'\''));
    }
    Some(token(t, a, 0))
}
