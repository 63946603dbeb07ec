// Writers of octets as digits. Those of B32 and B64 have W bits, and an alphabet of N characters; they are written in groups of
// G octets that make whole digits: 5 octets are 8 digits of 5 bits, 3 are 4 of 6 bits. X has two hex digits an octet, each from
// a table of sixteen characters.
ghost use Rattle.std.specs.Prelude.{◌≡◌, ◌+◌, ◌*◌, ◌-◌, ◌/◌, ◌^◌, ◌<◌, ◌≤◌, length};
ghost use Rattle.std.proofs.lemmas.List.Edits.{sets};
ghost use Rattle.format.specs.Lists.{flat};
ghost use Rattle.format.specs.Digits.{digits, number};
ghost use Rattle.format.specs.Base.{bits, to_digits, base32_text, base64_text};
ghost use Rattle.format.specs.Hex.{hex_text, counted_hex_text};
ghost use Rattle.buffer.specs.Writing.{Wrote};
ghost use Rattle.base.specs.Alphabet.{chars, Grouped};
ghost use Rattle.base.specs.Hex.{table_text};

use buffer::{fitting, put, put_all, put_octet};

// The number whose bits are those of G octets.
fn number_of<const G: usize>(xs: &[u8; G]) -> usize
    requires { G ≤ 5 }
    ensures value { result ≡ number 2 (bits 8 xs.now) }
    ensures long { length xs.now ≡ G }
{
    let mut v = 0;
    for b in xs {
        v = v * 256 + usize::from(*b);
    }
    v
}

// Stores the k lowest digits of v, from the last on; there is room for them.
fn store<const N: usize>(out: &mut [u8], at: usize, alphabet: &[u8; N], k: usize, v: usize)
    requires room { at + k ≤ length out.old }
    requires some { 0 < N }
    ensures { out.new ≡ sets out.old at (chars alphabet.now (digits N k v)) }
{
    let mut x = v;
    for i in (0..k).rev() {
        out[at + i] = alphabet[x % N];
        x /= N;
    }
}

// Writes the digits of whole groups; there is room for them. With constants for W, G and N the inner loops are unrolled.
fn groups<const W: usize, const G: usize, const N: usize>(
    out: &mut [u8],
    at: usize,
    alphabet: &[u8; N],
    pieces: &[[u8; G]],
) -> usize
    requires grouped { Grouped W G N }
    requires room { 8 * G / W * length pieces.now ≤ length out.old - at }
    ensures { Wrote out.old out.new at result (chars alphabet.now (to_digits W (flat pieces.now))) }
{
    let mut m = at;
    for xs in pieces {
        store(out, m, alphabet, 8 * G / W, number_of(xs));
        m += 8 * G / W;
    }
    m
}

// Writes the digits of at most one group; a short group is filled up with zeros.
fn group<const W: usize, const G: usize, const N: usize>(
    out: &mut [u8],
    at: usize,
    alphabet: &[u8; N],
    p: &[u8],
) -> usize
    requires grouped { Grouped W G N }
    requires place { at < 2 ^ 32 }
    requires one_group { length p.now ≤ G }
    ensures { Wrote out.old out.new at result (chars alphabet.now (to_digits W p.now)) }
{
    let mut octets = [0; G];
    put_all(&mut octets, 0, p);
    let mut text = [0; 8];
    store(&mut text, 0, alphabet, 8 * G / W, number_of(&octets));
    put_all(out, at, &text[..(8 * p.len() + W - 1) / W])
}

// Writes the digits of at most one group, or there is no room for what follows the first group.
fn rest<const W: usize, const G: usize, const N: usize>(
    out: &mut [u8],
    at: usize,
    alphabet: &[u8; N],
    p: &[u8],
) -> usize
    requires grouped { Grouped W G N }
    requires place { at < 2 ^ 32 }
    requires short { length p.now ≤ 65535 }
    requires no_room { G < length p.now → length out.old ≤ at + 8 * G / W }
    ensures { Wrote out.old out.new at result (chars alphabet.now (to_digits W p.now)) }
{
    group::<W, G, N>(out, at, alphabet, &p[..p.len().min(G)]);
    at + (8 * p.len() + W - 1) / W
}

// Writes octets in base 32, without padding. Digits for which there is no room are only counted.
pub fn base32(out: &mut [u8], at: usize, p: &[u8]) -> usize
    requires place { at < 2 ^ 30 }
    requires short { length p.now ≤ 65535 }
    ensures { Wrote out.old out.new at result (base32_text p.now) }
{
    let alphabet = b"0123456789ABCDEFGHIJKLMNOPQRSTUV";
    let c = fitting(out.len(), at, 8, p.len() / 5);
    let m = groups::<5, 5, 32>(out, at, alphabet, &p.as_chunks::<5>().0[..c]);
    rest::<5, 5, 32>(out, m, alphabet, &p[5 * c..])
}

// Writes octets in base 64, with padding; else as `base32`.
pub fn base64(out: &mut [u8], at: usize, p: &[u8]) -> usize
    requires place { at < 2 ^ 30 }
    requires short { length p.now ≤ 65535 }
    ensures { Wrote out.old out.new at result (base64_text p.now) }
{
    let alphabet = b"ABCDEFGHIJKLMNOPQRSTUVWXYZabcdefghijklmnopqrstuvwxyz0123456789+/";
    let c = fitting(out.len(), at, 4, p.len() / 3);
    let m = groups::<6, 3, 64>(out, at, alphabet, &p.as_chunks::<3>().0[..c]);
    let r = rest::<6, 3, 64>(out, m, alphabet, &p[3 * c..]);
    let k = (4 - (r - at) % 4) % 4;
    put_all(out, r, &[b'='; 3][..k])
}

// Writes two digits for each octet, from a table; there is room for all.
fn hex_pairs(out: &mut [u8], at: usize, table: &[u8; 16], xs: &[u8]) -> usize
    requires { 2 * length xs.now ≤ length out.old - at }
    ensures { Wrote out.old out.new at result (table_text table.now xs.now) }
{
    let mut m = at;
    for &b in xs {
        out[m] = table[usize::from(b / 16)];
        out[m + 1] = table[usize::from(b % 16)];
        m += 2;
    }
    m
}

// Writes two digits for each octet, from a table. The first octet without room for both may have room for one; those after it
// have none.
fn hex_by_table(out: &mut [u8], at: usize, table: &[u8; 16], xs: &[u8]) -> usize
    requires place { at < 2 ^ 32 }
    requires short { length xs.now < 2 ^ 32 }
    ensures { Wrote out.old out.new at result (table_text table.now xs.now) }
{
    let c = fitting(out.len(), at, 2, xs.len());
    let m = hex_pairs(out, at, table, &xs[..c]);
    if xs.len() <= c {
        return m;
    }
    put(out, m, table[usize::from(xs[c] / 16)]);
    at + 2 * xs.len()
}

// Writes two hex digits for each octet. The table is bound once and lent: a byte string is stored anew wherever it is named.
pub fn put_hex_upper(out: &mut [u8], at: usize, xs: &[u8]) -> usize
    requires place { at < 2 ^ 32 }
    requires short { length xs.now < 2 ^ 32 }
    ensures { Wrote out.old out.new at result (hex_text xs.now) }
{
    let table = b"0123456789ABCDEF";
    hex_by_table(out, at, table, xs)
}

// Writes two hex digits for each octet, or `-` if there is none.
pub fn counted_hex(out: &mut [u8], at: usize, p: &[u8]) -> usize
    requires place { at < 2 ^ 32 }
    requires short { length p.now ≤ 65535 }
    ensures { Wrote out.old out.new at result (counted_hex_text p.now) }
{
    if p.is_empty() {
        return put_octet(out, at, b'-');
    }
    put_hex_upper(out, at, p)
}
