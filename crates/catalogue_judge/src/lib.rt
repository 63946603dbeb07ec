// The first bad entry of a catalogue of type names.
#![tactic(auto)]

ghost use Rattle.std.specs.Prelude.{◌≤◌, ◌<◌, min, ◌≡◌, false, cond, None, length, get_or, take, eqb, IfErr, IfOk, OnOk};
ghost use Rattle.format.specs.Lists.{any_of};
ghost use Rattle.format.specs.Catalogue.{is_type_number, bad_entry, catalogued};
ghost use Rattle.catalogue.specs.Entries.{entries_at, spelled_at, Listed};
ghost use Rattle.catalogue_judge.specs.Judging.{stopped_at, folded_table, word_from, good_at, met_before, Hashed, Front, Settled};

use catalogue::Catalogue;
use octets::Class;

// A number below 2^56 for a word, if all its octets are those of a name. Words that are the same but for case have the same
// number; of words of at most seven octets no others do.
fn word(table: &[u8; 256], t: &[u8]) -> Option<u64>
    requires { table.now ≡ folded_table }
    ensures { result ≡ word_from 0 t.now }
{
    let mut h: u64 = 0;
    for &b in t {
        let f = table[usize::from(b)];
        if f == 0 {
            return None;
        }
        h = (h * 129 + u64::from(f)) % 72057594037927936;
    }
    Some(h)
}

// Whether a word is `TYPE` and one or more digits, case ignored.
fn is_typed(t: &[u8]) -> bool
    ensures { result ≡ is_type_number t.now }
{
    t.len() >= 5
        && stanza_words::same(true, &t[..4], b"TYPE")
        && octets::skip(&t[4..], Class::Digit) == t.len() - 4
}

// The number of an entry's name, if the entry is good in itself.
fn alone(table: &[u8; 256], names: &[u8], w: u64) -> Option<u64>
    requires { table.now ≡ folded_table }
    ensures { result ≡ cond (good_at names.now w) (word_from 0 (spelled_at names.now w)) None }
{
    if names.len() < catalogue::start(w) + catalogue::size(w) || 65535 < catalogue::type_number(w) {
        return None;
    }
    let t = catalogue::spelled(names, w);
    if is_typed(t) || !stanza_words::begins_name(t) {
        return None;
    }
    word(table, t)
}

// How many of the first n entries come before one that is bad in itself or does not rise by number: n if there is none.
// Stores the numbers of their names.
fn front_by(table: &[u8; 256], entries: &[u64], names: &[u8], hashes: &mut [u64], n: usize) -> usize
    requires folded { table.now ≡ folded_table }
    requires entries { n ≤ length entries.now }
    requires hashes { n ≤ length hashes.old }
    ensures { Front names.now entries.now hashes.new n result }
{
    let mut low: u64 = 0;
    for i in 0..n {
        let w = entries[i];
        let t = catalogue::type_number(w);
        if t < low {
            return i;
        }
        match alone(table, names, w) {
            None => return i,
            Some(h) => hashes[i] = h,
        }
        low = t + 1;
    }
    n
}

// The same for at most 512 entries. The table holds each octet of a name in lower case, and 0 for any other octet.
fn front(entries: &[u64], names: &[u8], hashes: &mut [u64]) -> usize
    requires { 512 ≤ length hashes.old }
    ensures { Front names.now entries.now hashes.new (min (length entries.now) 512) result }
{
    let table =
        b"\x00\x00\x00\x00\x00\x00\x00\x00\x00\x00\x00\x00\x00\x00\x00\x00\x00\x00\x00\x00\x00\x00\x00\x00\x00\x00\x00\x00\x00\x00\x00\x00\x00\x00\x00\x00\x00\x00\x00\x00\x00\x00\x00\x00\x00\x2d\x00\x00\x30\x31\x32\x33\x34\x35\x36\x37\x38\x39\x00\x00\x00\x00\x00\x00\x00\x61\x62\x63\x64\x65\x66\x67\x68\x69\x6a\x6b\x6c\x6d\x6e\x6f\x70\x71\x72\x73\x74\x75\x76\x77\x78\x79\x7a\x00\x00\x00\x00\x00\x00\x61\x62\x63\x64\x65\x66\x67\x68\x69\x6a\x6b\x6c\x6d\x6e\x6f\x70\x71\x72\x73\x74\x75\x76\x77\x78\x79\x7a\x00\x00\x00\x00\x00\x00\x00\x00\x00\x00\x00\x00\x00\x00\x00\x00\x00\x00\x00\x00\x00\x00\x00\x00\x00\x00\x00\x00\x00\x00\x00\x00\x00\x00\x00\x00\x00\x00\x00\x00\x00\x00\x00\x00\x00\x00\x00\x00\x00\x00\x00\x00\x00\x00\x00\x00\x00\x00\x00\x00\x00\x00\x00\x00\x00\x00\x00\x00\x00\x00\x00\x00\x00\x00\x00\x00\x00\x00\x00\x00\x00\x00\x00\x00\x00\x00\x00\x00\x00\x00\x00\x00\x00\x00\x00\x00\x00\x00\x00\x00\x00\x00\x00\x00\x00\x00\x00\x00\x00\x00\x00\x00\x00\x00\x00\x00\x00\x00\x00\x00\x00\x00\x00\x00\x00\x00\x00\x00\x00\x00\x00\x00\x00";
    front_by(table, entries, names, hashes, entries.len().min(512))
}

// Whether one of the numbers is h. The loop never stops early, so that it takes many numbers at once.
fn some_hash(hashes: &[u64], h: u64) -> bool
    ensures { result ≡ any_of (λ x. eqb x h) hashes.now }
{
    let mut some = false;
    for &x in hashes {
        some |= x == h;
    }
    some
}

// Entries that are good in themselves, from the first on, with the numbers of their names.
#[derive(Clone, Copy)]
struct Numbered<'a> {
    entries: &'a [u64],
    names: &'a [u8],
    hashes: &'a [u64],
    ghost within: { length hashes.now ≤ length entries.now },
    ghost hashed: { Hashed names.now entries.now hashes.now (length hashes.now) },
}

impl Numbered<'_> {
    // Whether the name of entry k is the same as an earlier one, each of which is tried: only names with the same number are compared.
    fn exact_again(&self, k: usize) -> bool
        requires { k < length self.now.hashes.now }
        ensures { result ≡ met_before self.now.names.now self.now.entries.now k }
    {
        let h = self.hashes[k];
        let name = catalogue::spelled(self.names, self.entries[k]);
        for j in 0..k {
            if self.hashes[j] == h {
                let other = catalogue::spelled(self.names, self.entries[j]);
                if stanza_words::same_long(true, other, name) {
                    return true;
                }
            }
        }
        false
    }

    // The same. If entry k's mark is not set, no earlier name has set it.
    fn again(&self, marked: bool, k: usize) -> bool
        requires within { k < length self.now.hashes.now }
        requires unmarked { marked ≡ false → met_before self.now.names.now self.now.entries.now k ≡ false }
        ensures { result ≡ met_before self.now.names.now self.now.entries.now k }
    {
        marked && some_hash(&self.hashes[..k], self.hashes[k]) && self.exact_again(k)
    }

    // The first entry whose name is the same as an earlier one, or how many they are. Each name sets one of 4,096 marks, by its
    // number: one whose mark is not set yet is the same as none.
    fn first_again(&self) -> usize
        ensures { Settled self.now.names.now self.now.entries.now (length self.now.hashes.now) result }
    {
        let mut met = [false; 4096];
        for (k, &h) in self.hashes.iter().enumerate() {
            let m = (h % 4294967296 * 2654435769 / 1048576 % 4096) as usize;
            if self.again(met[m], k) {
                return k;
            }
            met[m] = true;
        }
        self.hashes.len()
    }
}

// How many entries come before the first bad one. Not inlined: its array and that of `first_again` take 8 KiB of stack, which a
// call without a catalogue does not need.
#[inline(never)]
fn good_before(entries: &[u64], names: &[u8]) -> usize
    ensures few { result ≤ 512 }
    ensures stopped { catalogued names.now (entries_at entries.now) ≡ stopped_at result names.now entries.now }
{
    let mut hashes = [0; 512];
    let n = front(entries, names, &mut hashes);
    let numbered = Numbered {
        entries,
        names,
        hashes: &hashes[..n],
    };
    numbered.first_again()
}

// The catalogue of the entries; or the place (from 1) of the first bad one.
pub fn judged<'a>(entries: &'a [u64], names: &'a [u8]) -> Result<Catalogue<'a>, usize>
    ensures types { IfOk result (λ c. c.types.now ≡ entries.now) }
    ensures names { IfOk result (λ c. c.names.now ≡ names.now) }
    ensures listed { OnOk result (Listed names.now entries.now) }
    ensures bad { IfErr result (λ k. catalogued names.now (entries_at entries.now) ≡ bad_entry k) }
    ensures from_one { IfErr result (λ k. 1 ≤ k) }
    ensures few { IfErr result (λ k. k ≤ 513) }
{
    if !entries.is_empty() {
        let k = good_before(entries, names);
        if k < entries.len() {
            return Err(k + 1);
        }
    }
    Ok(Catalogue {
        types: entries,
        names,
    })
}
