// Reads A, AA and AAAA.
ghost use Rattle.std.specs.Prelude.{MatchOption, IfSome, ◌+◌, ◌^◌, ◌<◌, ◌≤◌, ◌≡◌, true, length};
ghost use Rattle.format.specs.Address.{read_a, read_aa, read_aaaa, single, double, at_double_colon};
ghost use Rattle.buffer.specs.Writing.{Values};
ghost use Rattle.address.specs.Address.{two_colons, last_in, groups_in, side_in, sixteen, filled, both_sides};

use crate::part::{PartForm, first_part};
use buffer::put_all;

// Reads four numbers 0 to 255 with dots between them.
pub fn dotted(out: &mut [u8], at: usize, t: &[u8]) -> Option<usize>
    requires { at < 2 ^ 30 }
    ensures { Values out.old out.new at result (read_a t.now) }
{
    PartForm::Small.parts(out, at, 4, t)
}

// Reads four groups with colons between them.
pub fn four_groups(out: &mut [u8], at: usize, t: &[u8]) -> Option<usize>
    requires { at < 2 ^ 30 }
    ensures { Values out.old out.new at result (read_aa t.now) }
{
    PartForm::Group.parts(out, at, 4, t)
}

// Whether two colons come first.
fn two_colons(t: &[u8]) -> bool
    requires { 2 ≤ length t.now }
    ensures { result ≡ two_colons t.now }
{
    t[0] == b':' && t[1] == b':'
}

// What stands before the first double colon and after it; none if there is no double colon.
fn double_colon(t: &[u8]) -> Option<(&[u8], &[u8])>
    ensures sides { MatchOption result (at_double_colon t.now ≡ single) (λ p. at_double_colon t.now ≡ double p.0.now p.1.now) }
    ensures shorter { IfSome result (λ p. length p.0.now + length p.1.now + 2 ≡ length t.now) }
{
    for i in 1..t.len() {
        if two_colons(&t[i - 1..]) {
            return Some((&t[..i - 1], &t[i + 1..]));
        }
    }
    None
}

// Reads the last part: a group or, if `tail` is true, an address in dotted form.
fn last_part(out: &mut [u8], at: usize, t: &[u8], tail: bool) -> Option<usize>
    requires { at < 2 ^ 31 }
    ensures { Values out.old out.new at result (last_in tail t.now) }
{
    if let Some(v) = PartForm::Group.number(t) {
        return Some(PartForm::Group.put_number(out, at, v));
    }
    if tail {
        return PartForm::Small.parts(out, at, 4, t);
    }
    None
}

// Reads groups with colons between them; the last may be dotted if `tail` is true.
fn groups(out: &mut [u8], at: usize, t: &[u8], tail: bool) -> Option<usize>
    requires place { at ≤ 2 ^ 30 + 16 }
    requires text { length t.now ≤ 1048576 }
    ensures { Values out.old out.new at result (groups_in tail t.now) }
{
    let mut m = at;
    let mut rest = t;
    while let Some((part, next)) = first_part(rest, b':') {
        m = PartForm::Group.piece(out, m, part)?;
        rest = next;
    }
    last_part(out, m, rest, tail)
}

// Reads the groups on one side of a double colon; there may be none.
fn side(out: &mut [u8], at: usize, t: &[u8], tail: bool) -> Option<usize>
    requires place { at ≤ 2 ^ 30 + 16 }
    requires text { length t.now ≤ 1048576 }
    ensures { Values out.old out.new at result (side_in tail t.now) }
{
    if t.is_empty() {
        return Some(at);
    }
    groups(out, at, t, tail)
}

// Reads the right side after g octets of the left side, and puts zeros before it. It is read twice: first to know its length.
fn right(out: &mut [u8], at: usize, g: usize, t: &[u8]) -> Option<usize>
    requires place { at ≤ 2 ^ 30 + g }
    requires left { g ≤ 14 }
    requires text { length t.now ≤ 1048576 }
    ensures { Values out.old out.new at result (filled g (side_in true t.now)) }
{
    let h = side(out, at, t, true)? - at;
    if 14 - g < h {
        return None;
    }
    let m = put_all(out, at, &[0; 16][g + h..]);
    side(out, m, t, true)
}

// Reads the texts on both sides of a double colon.
fn around(out: &mut [u8], at: usize, s: &[u8], t: &[u8]) -> Option<usize>
    requires place { at < 2 ^ 30 }
    requires left { length s.now ≤ 1048576 }
    requires right { length t.now ≤ 1048576 }
    ensures { Values out.old out.new at result (both_sides s.now t.now) }
{
    let m = side(out, at, s, false)?;
    let g = m - at;
    if 14 < g {
        return None;
    }
    right(out, m, g, t)
}

// Reads a text without a double colon: exactly eight groups.
fn whole(out: &mut [u8], at: usize, t: &[u8]) -> Option<usize>
    requires place { at < 2 ^ 30 }
    requires text { length t.now ≤ 1048576 }
    ensures { Values out.old out.new at result (sixteen (groups_in true t.now)) }
{
    let r = groups(out, at, t, true)?;
    if r - at != 16 {
        return None;
    }
    Some(r)
}

// Reads eight groups, or fewer with a double colon for the missing ones.
pub fn aaaa(out: &mut [u8], at: usize, t: &[u8]) -> Option<usize>
    requires place { at < 2 ^ 30 }
    requires text { length t.now ≤ 1048576 }
    ensures { Values out.old out.new at result (read_aaaa t.now) }
{
    match double_colon(t) {
        Some((s, u)) => around(out, at, s, u),
        None => whole(out, at, t),
    }
}
