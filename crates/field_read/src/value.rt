// Reads the value of the one token that a field takes.
ghost use Rattle.std.specs.Prelude.{ℕ, ◌^◌, ◌<◌, ◌≤◌, List, length};
ghost use Rattle.format.specs.Field.{Symbol};
ghost use Rattle.format.specs.Token.{bare, quoted};
ghost use Rattle.format.specs.Catalogue.{TypeName};
ghost use Rattle.stanza_form.specs.Forms.{kind_of, rule_of, value_by};
ghost use Rattle.buffer.specs.Writing.{Values};
ghost use Rattle.stanza_form.specs.Fields.{kind_for, Usable};
ghost use Rattle.catalogue.specs.Known.{names_in};

use crate::Under;
use stanza_form::{FieldDesc, Form};

// Reads the value of a bare token.
pub fn of_bare(out: &mut [u8], at: usize, d: FieldDesc, u: &Under<'_>, t: &[u8]) -> Option<usize>
    requires room { at < 2 ^ 30 }
    requires usable { Usable u.now.s.now d }
    requires text { length t.now ≤ 1048576 }
    ensures { Values out.old out.new at result (value_by (rule_of (names_in u.now.c) (kind_for u.now.s.now d)) u.now.origin.now (bare t.now)) }
{
    let a = usize::from(d.qualifiers_at);
    let b = usize::from(d.qualifiers_end);
    match d.form {
        Form::Int(w) => number::read::field(out, at, w, u.s, a, b, t),
        Form::Rrtype => rrtype::read::field(out, at, &u.c, t),
        Form::Dotted => address::read::dotted(out, at, t),
        Form::Aa => address::read::four_groups(out, at, t),
        Form::Aaaa => address::read::aaaa(out, at, t),
        Form::Name(_) => name::read::name(out, at, t, u.origin),
        Form::Str => text::read::string(out, at, t, false),
        Form::Raw => text::read::raw(out, at, t, false),
        Form::Base32 => base::read::counted_base32(out, at, t),
        Form::Hexc => base::read::counted_hex(out, at, t),
        Form::Eui(w) => eui::read::field(out, at, usize::from(w), t),
        Form::Time => time::read::field(out, at, t),
        // these take all tokens
        Form::Bitmap | Form::Strs | Form::Base64 | Form::Hex => None,
    }
}

// Reads the value of a quoted token, which only strings may have.
pub fn of_quoted(out: &mut [u8], at: usize, f: Form, t: &[u8]) -> Option<usize>
    requires room { at < 2 ^ 30 }
    requires text { length t.now ≤ 1048576 }
    ensures { (c : List TypeName) (l : List Symbol) (o : List ℕ) → Values out.old out.new at result (value_by (rule_of c (kind_of l f)) o (quoted t.now)) }
{
    match f {
        Form::Str => text::read::string(out, at, t, true),
        Form::Raw => text::read::raw(out, at, t, true),
        _ => None,
    }
}
