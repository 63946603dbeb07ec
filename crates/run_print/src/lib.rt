// Prints a run of fields.
#![tactic(auto)]

ghost use Rattle.std.specs.Prelude.{ℕ, ◌+◌, ◌*◌, ◌^◌, ◌<◌, ◌≤◌, ◌≡◌, true, cond, List, eqb, length};
ghost use Rattle.format.specs.Wire.{taken, took};
ghost use Rattle.format.specs.Field.{Symbol, start};
ghost use Rattle.format.specs.Run.{shown, text_of};
ghost use Rattle.buffer.specs.Writing.{Wrote};
ghost use Rattle.stanza_form.specs.Code.{fields_of};
ghost use Rattle.stanza_form.specs.Forms.{kind_of};
ghost use Rattle.run_wire.specs.Run.{kinds_of};
ghost use Rattle.stanza_form.specs.Fields.{kind_for, Usable};
ghost use Rattle.catalogue.specs.Known.{names_in};
ghost use Rattle.run_print.specs.Printing.{Accepted, lead};

use catalogue::Catalogue;
use stanza_form::{FieldDesc, Form};

// Where a field's text goes after `at` octets of text: room is left for a space, if there are any.
fn next_place(at: usize) -> usize
    requires { at < 2 ^ 30 }
    ensures { result ≡ cond (eqb at 0) 0 (at + 1) }
{
    if at == 0 { 0 } else { at + 1 }
}

// Writes the text of a field after `at` octets of text, with a space between them if neither is empty. There is one call of the
// field's writer, so that the compiler makes one piece of both.
fn put_next(out: &mut [u8], at: usize, d: FieldDesc, s: &[u8], c: &Catalogue<'_>, p: &[u8]) -> usize
    requires place { at < 2 ^ 30 }
    requires usable { Usable s.now d }
    requires stanza { length s.now ≤ 8192 }
    requires octets { length p.now ≤ 65535 }
    requires taken { taken (start (kind_for s.now d)) p.now ≡ took (length p.now) }
    ensures wrote { Wrote out.old out.new at result (lead at (shown (names_in c.now) (kind_for s.now d) p.now)) }
    ensures bound { result ≤ at + 4 * length p.now + 687680 }
{
    let a = next_place(at).min(out.len());
    let w = field_print::put_field(&mut out[a..], d, s, c, p);
    if at == 0 {
        return w;
    }
    if w == 0 {
        return at;
    }
    buffer::put(out, at, b' ');
    at + 1 + w
}

// How many octets the field that p begins with takes. The last field takes all that are left, so it is not walked again.
fn field_width(last: bool, f: Form, p: &[u8]) -> usize
    ensures { (l : List Symbol) (w : ℕ) → taken (start (kind_of l f)) p.now ≡ took w → (last ≡ true → w ≡ length p.now) → result ≡ w }
{
    if last {
        return p.len();
    }
    field_print::width(f, p)
}

// Writes the text of a run of fields, given by their codes, for RDATA that they take.
pub fn put_run(out: &mut [u8], s: &[u8], codes: &[u64], c: &Catalogue<'_>, p: &[u8]) -> usize
    requires { Accepted s.now (fields_of codes.now) p.now }
    ensures { Wrote out.old out.new 0 result (text_of (names_in c.now) (kinds_of s.now (fields_of codes.now)) p.now) }
{
    let mut at = 0;
    let mut left = p;
    for (k, code) in codes.iter().enumerate() {
        let d = stanza_form::field(*code);
        let w = field_width(k + 1 == codes.len(), d.form, left);
        let (field, others) = left.split_at(w);
        at = put_next(out, at, d, s, c, field);
        left = others;
    }
    at
}
