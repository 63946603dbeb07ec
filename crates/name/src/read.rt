// Reads names.
ghost use Rattle.std.specs.Prelude.{◌-◌, ◌^◌, ◌<◌, ◌≤◌, ◌≡◌, true, length, leb};
ghost use Rattle.format.specs.Lists.{provided};
ghost use Rattle.format.specs.Name.{is_wire_name, read_name};
ghost use Rattle.buffer.specs.Writing.{Values};
ghost use Rattle.name.specs.Name.{spelled, limited, OneItem, Labelled, name_end, Finished};

use buffer::{put, put_all, put_octet};
use octets::is_alone;

// How a label ends: at a dot, with the places after the dot in the text and after the label in the buffer; or at the end of the
// text, with the place after the label in the buffer.
#[derive(Clone, Copy)]
enum LabelEnd {
    Dot(usize, usize),
    Last(usize),
}

// The place m, if there are at most 255 octets from `at` to m.
fn limited_end(at: usize, m: usize) -> Option<usize>
    requires { at ≤ m }
    ensures { result ≡ provided (leb (m - at) 255) m }
{
    if 255 < m - at {
        return None;
    }
    Some(m)
}

// The octet at j, or that of the escape that begins there, and the place after it.
fn octet(t: &[u8], j: usize) -> Option<(u8, usize)>
    requires { j < length t.now }
    ensures { OneItem t.now j result }
{
    let b = t[j];
    if b == b'\\' {
        let (x, n) = escape::read::read(&t[j + 1..])?;
        return Some((x, j + 1 + n));
    }
    Some((b, j + 1))
}

// Reads the label that begins at i: stores its octets, and then its count before them. It works on places in the whole text:
// a part lent at each octet makes short labels slow.
fn label(out: &mut [u8], at: usize, t: &[u8], i: usize) -> Option<LabelEnd>
    requires place { at < 2 ^ 31 }
    requires text { i < length t.now }
    ensures { Labelled out.old out.new at t.now i result }
{
    let mut m = at + 1;
    let mut j = i;
    while j < t.len() {
        if t[j] == b'.' {
            if m <= at + 1 {
                return None;
            }
            put(out, at, (m - (at + 1)) as u8);
            return Some(LabelEnd::Dot(j + 1, m));
        }
        let (b, k) = octet(t, j)?;
        if at + 63 < m {
            return None;
        }
        put(out, m, b);
        m += 1;
        j = k;
    }
    put(out, at, (m - (at + 1)) as u8);
    Some(LabelEnd::Last(m))
}

// Ends a name whose labels stand from `at` to m: stores a zero octet, or the origin.
fn finish(out: &mut [u8], at: usize, m: usize, origin: &[u8], absolute: bool) -> Option<usize>
    requires order { at ≤ m }
    requires place { m < 2 ^ 31 }
    requires origin { length origin.now ≤ 255 }
    ensures { Finished out.old out.new at m (name_end absolute origin.now) result }
{
    if absolute {
        return limited_end(at, put_octet(out, m, 0));
    }
    limited_end(at, put_all(out, m, origin))
}

// Reads the labels of t, and ends the name: a zero octet after a final dot, else the origin.
fn labels(out: &mut [u8], at: usize, t: &[u8], origin: &[u8]) -> Option<usize>
    requires place { at < 2 ^ 30 }
    requires origin { length origin.now ≤ 255 }
    ensures { Values out.old out.new at result (limited (spelled origin.now t.now)) }
{
    let mut m = at;
    let mut j = 0;
    while j < t.len() {
        match label(out, m, t, j)? {
            LabelEnd::Last(r) => {
                return finish(out, at, r, origin, false);
            }
            LabelEnd::Dot(k, r) => {
                if 255 < r - at {
                    return None;
                }
                j = k;
                m = r;
            }
        }
    }
    finish(out, at, m, origin, true)
}

// Reads the name that t spells: the root, the origin, an absolute name, or a relative one with the origin after it.
pub fn name(out: &mut [u8], at: usize, t: &[u8], origin: &[u8]) -> Option<usize>
    requires place { at < 2 ^ 30 }
    requires origin { is_wire_name origin.now ≡ true }
    ensures { Values out.old out.new at result (read_name origin.now t.now) }
{
    if is_alone(t, b'@') {
        return Some(put_all(out, at, origin));
    }
    if is_alone(t, b'.') {
        return Some(put_octet(out, at, 0));
    }
    labels(out, at, t, origin)
}
