// Whether a name occurs twice among qualifiers, and symbols that are recognized in one pass.
#![tactic(auto, using(stanza_words::proofs::Laws::run_within))]

ghost use Rattle.std.specs.Prelude.{◌-◌, ◌≤◌, ◌<◌, length, ◌≡◌, true, false};
ghost use Rattle.stanza_words.specs.Qualifiers.{any_in, twice_in};
ghost use Rattle.stanza_distinct.specs.Distinct.{bucket_of, comma_at, SymbolAt, Named};
ghost use Rattle.stanza_words.specs.declared.Test.TheVariants.{NotSymbol};

use octets::Class;
use stanza_words::{begins_name, fold};

// A symbol that stands between commas: where its name ends, where it ends, and its number.
#[derive(Clone, Copy)]
pub struct Symbol {
    pub name_end: usize,
    pub end: usize,
    pub number: u64,
}

// A number from 0 to 255 for a name. Names that are the same have the same number.
fn bucket(ignoring: bool, t: &[u8]) -> usize
    ensures value { result ≡ bucket_of ignoring t.now }
    ensures small { result < 256 }
{
    if t.is_empty() {
        return 0;
    }
    let x = usize::from(fold(ignoring, t[0]));
    let y = usize::from(fold(ignoring, t[t.len() - 1]));
    ((t.len() % 32 + x) * 8 + y) % 256
}

// Whether no two names between a and b have the same number, so that no name occurs twice.
fn apart(ignoring: bool, s: &[u8], a: usize, b: usize) -> bool
    requires from { a ≤ b }
    requires to { b ≤ length s.now }
    ensures { result ≡ true → twice_in ignoring s.now a b ≡ false }
{
    let mut met = [false; 256];
    let mut i = a;
    loop {
        let z = i + octets::skip(&s[i..b], Class::NotComma);
        let n = i + octets::skip(&s[i..z], Class::NameOctet);
        let k = bucket(ignoring, &s[i..n]);
        if met[k] {
            return false;
        }
        if z == b {
            return true;
        }
        met[k] = true;
        i = z + 1;
    }
}

// Whether a qualifier ends at z: at a comma, or at the end b.
fn ends_at(s: &[u8], z: usize, b: usize) -> bool
    requires from { z ≤ b }
    requires to { b ≤ length s.now }
    ensures { result ≡ true → z ≡ comma_at s.now z b }
{
    z == b || s[z] == b','
}

// The symbol that starts at i, recognized in one pass; it ends at a comma or at b.
fn symbol_at(s: &[u8], i: usize, b: usize) -> Option<Symbol>
    requires from { i ≤ b }
    requires to { b ≤ length s.now }
    ensures { SymbolAt s.now i b result }
{
    let name_end = i + octets::skip(&s[i..b], Class::NameOctet);
    if !begins_name(&s[i..name_end]) || name_end == b || s[name_end] != b'=' {
        return None;
    }
    let digits = name_end + 1;
    let end = digits + octets::skip(&s[digits..b], Class::Digit);
    if !ends_at(s, end, b) {
        return None;
    }
    let number = octets::decimal(&s[digits..end])?;
    Some(Symbol {
        name_end,
        end,
        number,
    })
}

// Whether between a and b there are surely only symbols with numbers below the limit, none of them twice.
pub fn plain_symbols(limit: u64, s: &[u8], a: usize, b: usize) -> bool
    requires from { a ≤ b }
    requires to { b ≤ length s.now }
    ensures plain { result ≡ true → any_in (NotSymbol limit) s.now a b ≡ false }
    ensures once { result ≡ true → twice_in true s.now a b ≡ false }
{
    let mut met = [false; 256];
    let mut i = a;
    loop {
        let Some(x) = symbol_at(s, i, b) else {
            return false;
        };
        let k = bucket(true, &s[i..x.name_end]);
        if limit <= x.number || met[k] {
            return false;
        }
        if x.end == b {
            return true;
        }
        met[k] = true;
        i = x.end + 1;
    }
}

// Stores the names between a and b, as parts, into two lists, and answers how many they are.
fn names(s: &[u8], a: usize, b: usize, list: &mut [u32], other: &mut [u32]) -> usize
    requires from { a ≤ b }
    requires to { b ≤ length s.now }
    requires short { length s.now ≤ 8192 }
    requires room { b - a < length list.old }
    requires alike { length other.old ≡ length list.old }
    ensures { Named s.now a b list.new other.new result }
{
    let mut i = a;
    let mut n = 0;
    loop {
        let z = i + octets::skip(&s[i..b], Class::NotComma);
        let e = i + octets::skip(&s[i..z], Class::NameOctet);
        let p = parts::part(i, e);
        list[n] = p;
        other[n] = p;
        n += 1;
        if z == b {
            return n;
        }
        i = z + 1;
    }
}

// Whether two qualifiers between a and b have the same name, by sorting the names in two lists that are long enough.
fn sorted_twice<const N: usize>(ignoring: bool, s: &[u8], a: usize, b: usize) -> bool
    requires from { a ≤ b }
    requires to { b ≤ length s.now }
    requires short { length s.now ≤ 8192 }
    requires room { b - a < N }
    requires lists { N ≤ 8193 }
    ensures { result ≡ twice_in ignoring s.now a b }
{
    let mut list = [0u32; N];
    let mut other = [0u32; N];
    let n = names(s, a, b, &mut list, &mut other);
    parts::twice(ignoring, s, &mut list[..n], &mut other[..n])
}

// The same for any number of qualifiers: in a stanza of 8,192 octets there are at most 8,193. Clearing lists of so many takes
// longer than judging most qualifiers, so that for at most 1,023 octets the lists are short.
fn exact_twice(ignoring: bool, s: &[u8], a: usize, b: usize) -> bool
    requires from { a ≤ b }
    requires to { b ≤ length s.now }
    requires short { length s.now ≤ 8192 }
    ensures { result ≡ twice_in ignoring s.now a b }
{
    if b - a < 1024 {
        return sorted_twice::<1024>(ignoring, s, a, b);
    }
    sorted_twice::<8193>(ignoring, s, a, b)
}

// Whether two qualifiers between a and b have the same name. They are sorted only if two have the same number. There are two
// calls of the exact way, so that the compiler keeps it apart: its lists would otherwise be touched at each call of this function.
pub fn twice(ignoring: bool, s: &[u8], a: usize, b: usize) -> bool
    requires from { a ≤ b }
    requires to { b ≤ length s.now }
    requires short { length s.now ≤ 8192 }
    ensures { result ≡ twice_in ignoring s.now a b }
{
    if apart(ignoring, s, a, b) {
        return false;
    }
    if ignoring {
        return exact_twice(true, s, a, b);
    }
    exact_twice(false, s, a, b)
}
