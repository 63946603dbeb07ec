// Prints an integer as the first symbol with its number, else in decimal. The symbols are the qualifiers of the field line that
// have numbers.
ghost use Rattle.std.specs.Prelude.{ℕ, ◌^◌, ◌<◌, ◌≤◌, ◌≡◌, List, length};
ghost use Rattle.std.specs.Prelude.{Some};
ghost use Rattle.format.specs.Field.{Symbol};
ghost use Rattle.format.specs.Number.{symbol_or_decimal};
ghost use Rattle.buffer.specs.Writing.{Wrote};
ghost use Rattle.stanza_form.specs.Forms.{symbols_in};

use crate::symbol::first;

// Writes the number v of an integer field: the first listed symbol with that number, else decimal.
pub fn put_number(out: &mut [u8], at: usize, s: &[u8], a: usize, b: usize, v: u64) -> usize
    requires place { at < 2 ^ 30 }
    requires from { a ≤ b }
    requires to { b ≤ length s.now }
    requires stanza { length s.now ≤ 8192 }
    requires number { v < 2 ^ 32 }
    ensures { (w : ℕ) (l : List Symbol) → symbols_in w s.now a b ≡ Some l → Wrote out.old out.new at result (symbol_or_decimal l v) }
{
    if a == b {
        return digits::put_decimal(out, at, v);
    }
    match first(s, a, b, |_, x| x == v) {
        Some((t, _)) => buffer::put_all(out, at, t),
        None => digits::put_decimal(out, at, v),
    }
}
