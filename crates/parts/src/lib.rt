// Whether two parts of a text are the same, found by sorting them.
#![tactic(auto)]

ghost use Rattle.std.specs.Prelude.{ℕ, ◌+◌, ◌<◌, length, ◌≡◌, List, ◌++◌, map};
ghost use Rattle.std.proofs.Math.Seq.{slice};
ghost use Rattle.format.specs.Lists;
ghost use Rattle.stanza_words.specs.Qualifiers.{same_by};
ghost use Rattle.parts.specs.Parts.{part_of, order_by, head_order, Rising, Sorted};

use std::cmp::Ordering;

// The number that names the part from i to e.
pub fn part(i: usize, e: usize) -> u32
    requires start { i < 65536 }
    requires end { e < 65536 }
    ensures { (s : List ℕ) → part_of s result ≡ slice i e s }
{
    (i * 65536 + e) as u32
}

// The part that a number names.
fn named(s: &[u8], x: u32) -> &[u8]
    ensures { result.now ≡ part_of s.now x }
{
    let e = s.len().min((x % 65536) as usize);
    let a = e.min((x / 65536) as usize);
    &s[a..e]
}

// The order of two texts: that of the first octets that differ, in lower case if `ignoring`; what ends first is less.
fn text_order(ignoring: bool, xs: &[u8], ys: &[u8]) -> Ordering
    ensures { result ≡ order_by ignoring xs.now ys.now }
{
    let folded = xs.iter().map(|x| stanza_words::fold(ignoring, *x));
    folded.cmp(ys.iter().map(|y| stanza_words::fold(ignoring, *y)))
}

// Which of two runs the next part is taken from: `Less` the first; `Greater` the second.
fn head_order(ignoring: bool, s: &[u8], xs: &[u32], ys: &[u32]) -> Ordering
    ensures { result ≡ head_order ignoring s.now xs.now ys.now }
{
    match (xs.first(), ys.first()) {
        (None, _) => Ordering::Greater,
        (_, None) => Ordering::Less,
        (Some(x), Some(y)) => text_order(ignoring, named(s, *x), named(s, *y)),
    }
}

// Merges two runs that rise into `out`. Answers at once if a part of the one is the same as a part of the other.
fn merge(ignoring: bool, s: &[u8], xs: &[u32], ys: &[u32], out: &mut [u32]) -> bool
    requires size { length xs.now + length ys.now ≡ length out.old }
    requires first { Rising ignoring s.now xs.now }
    requires second { Rising ignoring s.now ys.now }
    ensures { Sorted ignoring s.now (xs.now ++ ys.now) out.new result }
{
    let mut i = 0;
    for k in 0..out.len() {
        let j = k - i;
        match head_order(ignoring, s, &xs[i..], &ys[j..]) {
            Ordering::Less => {
                out[k] = xs[i];
                i += 1;
            }
            Ordering::Greater => out[k] = ys[j],
            Ordering::Equal => return true,
        }
    }
    false
}

// Sorts the parts, half by half. `other` holds them too, and what it holds afterwards is not said.
fn sort(ignoring: bool, s: &[u8], parts: &mut [u32], other: &mut [u32]) -> bool
    requires { other.old ≡ parts.old }
    ensures { Sorted ignoring s.now parts.old parts.new result }
{
    let m = parts.len() / 2;
    if m == 0 {
        return false;
    }
    let (front, back) = parts.split_at_mut(m);
    let (xs, ys) = other.split_at_mut(m);
    if sort(ignoring, s, xs, front) || sort(ignoring, s, ys, back) {
        return true;
    }
    merge(ignoring, s, xs, ys, parts)
}

// Whether two of the parts are the same, ignoring the case of letters or not. `other` holds the parts too; both are sorted on the way.
pub fn twice(ignoring: bool, s: &[u8], parts: &mut [u32], other: &mut [u32]) -> bool
    requires { other.old ≡ parts.old }
    ensures { result ≡ Lists.twice (same_by ignoring) (map (part_of s.now) parts.old) }
{
    sort(ignoring, s, parts, other)
}
