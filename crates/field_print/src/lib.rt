// Prints one field.
#![tactic(auto)]

ghost use Rattle.std.specs.Prelude.{ℕ, ◌≤◌, ◌≡◌, List, length};
ghost use Rattle.format.specs.Wire.{taken, took};
ghost use Rattle.format.specs.Field.{Symbol, start};
ghost use Rattle.format.specs.Run.{shown};
ghost use Rattle.buffer.specs.Writing.{Wrote};
ghost use Rattle.stanza_form.specs.Forms.{kind_of};
ghost use Rattle.stanza_form.specs.Fields.{kind_for, Usable};
ghost use Rattle.catalogue.specs.Known.{names_in};

use catalogue::Catalogue;
use stanza_form::{FieldDesc, Form};

// Writes the text of the field whose octets p are, at the start of the buffer.
pub fn put_field(out: &mut [u8], d: FieldDesc, s: &[u8], c: &Catalogue<'_>, p: &[u8]) -> usize
    requires usable { Usable s.now d }
    requires stanza { length s.now ≤ 8192 }
    requires octets { length p.now ≤ 65535 }
    requires taken { taken (start (kind_for s.now d)) p.now ≡ took (length p.now) }
    ensures { Wrote out.old out.new 0 result (shown (names_in c.now) (kind_for s.now d) p.now) }
{
    let a = usize::from(d.qualifiers_at);
    let b = usize::from(d.qualifiers_end);
    match d.form {
        Form::Int(_) => number::print::put_number(out, 0, s, a, b, octets::integer::number(p)),
        Form::Rrtype => rrtype::print::field(out, 0, c, p),
        Form::Bitmap => bitmap::print::field(out, 0, c, p),
        Form::Dotted => address::print::dotted(out, 0, p),
        Form::Aa => address::print::groups(out, 0, p),
        Form::Aaaa => address::print::aaaa(out, 0, p),
        Form::Name(_) => name::print::name(out, 0, p),
        Form::Str => text::print::string(out, 0, &p[1..]),
        Form::Strs => text::print::strings(out, 0, p),
        Form::Raw => text::print::string(out, 0, p),
        Form::Base32 => base::print::base32(out, 0, &p[1..]),
        Form::Base64 => base::print::base64(out, 0, p),
        Form::Hex => base::print::put_hex_upper(out, 0, p),
        Form::Hexc => base::print::counted_hex(out, 0, &p[1..]),
        Form::Eui(_) => eui::print::field(out, 0, p),
        Form::Time => time::print::field(out, 0, p),
    }
}

// How many octets the field that p begins with takes; it is called only for a field that is neither short nor broken.
pub fn width(f: Form, p: &[u8]) -> usize
    ensures { (l : List Symbol) (w : ℕ) → taken (start (kind_of l f)) p.now ≡ took w → result ≡ w }
{
    field_wire::take_field(f, p).unwrap_or(0)
}
