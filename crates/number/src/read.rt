// Reads an integer in decimal or as a symbol.
ghost use Rattle.std.specs.Prelude.{ℕ, ◌^◌, ◌<◌, ◌≤◌, ◌≡◌, List, length};
ghost use Rattle.std.specs.Prelude.{Some};
ghost use Rattle.format.specs.Field.{Symbol};
ghost use Rattle.format.specs.Number.{decimal_of, below, symbol_value, read_integer};
ghost use Rattle.stanza_form.specs.Forms.{symbols_in};
ghost use Rattle.buffer.specs.Writing.{Values};
ghost use Rattle.number.specs.Numbers.{octets_of, integer_of};

use crate::symbol::first;
use digits::put_octets;
use stanza_words::same;

// The number of the first symbol whose name is the text t, letters' case ignored.
pub fn value_of(s: &[u8], a: usize, b: usize, t: &[u8]) -> Option<u64>
    requires from { a ≤ b }
    requires to { b ≤ length s.now }
    ensures { (w : ℕ) (l : List Symbol) → symbols_in w s.now a b ≡ Some l → result ≡ symbol_value l t.now }
{
    if a == b {
        return None;
    }
    let (_, v) = first(s, a, b, |name, _| same(true, name, t))?;
    Some(v)
}

// Stores a number that was read, in w octets.
pub fn value(out: &mut [u8], at: usize, w: usize, v: Option<u64>) -> Option<usize>
    requires place { at < 2 ^ 31 }
    requires width { w ≤ 8 }
    ensures { Values out.old out.new at result (octets_of w v) }
{
    Some(put_octets(out, at, w, v?))
}

// A number that was read, if it is below m.
pub fn in_range(v: Option<u64>, m: u64) -> Option<u64>
    ensures { result ≡ below m v }
{
    v.filter(|x| *x < m)
}

// The decimal number that the text is, if it is below m.
pub fn decimal_below(m: u64, t: &[u8]) -> Option<u64>
    ensures { result ≡ below m (decimal_of t.now) }
{
    in_range(octets::decimal(t), m)
}

// The decimal number that the text is if it is below m, else that of the symbol so named among the qualifiers of s from a to b.
fn number(m: u64, s: &[u8], a: usize, b: usize, t: &[u8]) -> Option<u64>
    requires from { a ≤ b }
    requires to { b ≤ length s.now }
    ensures { (w : ℕ) (l : List Symbol) → symbols_in w s.now a b ≡ Some l → result ≡ integer_of m l t.now }
{
    match decimal_below(m, t) {
        Some(v) => Some(v),
        None => value_of(s, a, b, t),
    }
}

// Reads an integer of w octets: a number in range or a symbol.
pub fn field(
    out: &mut [u8],
    at: usize,
    w: u8,
    s: &[u8],
    a: usize,
    b: usize,
    t: &[u8],
) -> Option<usize>
    requires place { at < 2 ^ 30 }
    requires width { w ≤ 4 }
    requires from { a ≤ b }
    requires to { b ≤ length s.now }
    ensures { (l : List Symbol) → symbols_in w s.now a b ≡ Some l → Values out.old out.new at result (read_integer w l t.now) }
{
    let m = stanza_types::limit(w);
    value(out, at, usize::from(w), number(m, s, a, b, t))
}
