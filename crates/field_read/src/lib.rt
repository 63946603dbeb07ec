// Reads one field from its tokens.
#![tactic(auto)]

pub mod value;

ghost use Rattle.std.specs.Prelude.{ℕ, ◌^◌, ◌<◌, ◌≤◌, ◌≡◌, true, List, [], length, drop};
ghost use Rattle.format.specs.Field.{Symbol, strs};
ghost use Rattle.format.specs.Token.{tokens};
ghost use Rattle.format.specs.Name.{is_wire_name};
ghost use Rattle.format.specs.Catalogue.{TypeName};
ghost use Rattle.format.specs.Run.{read_field, one_token};
ghost use Rattle.format.specs.Text.{read_string};
ghost use Rattle.stanza_form.specs.Forms.{kind_of, rule_of, takes_one};
ghost use Rattle.stanza_form.specs.Fields.{kind_for, Usable};
ghost use Rattle.catalogue.specs.Known.{names_in};
ghost use Rattle.field_read.specs.Fields.{placed_at, got_at, Gives, Onward};

use base::read::{base64_rest, hex_rest};
use buffer::Lack;
use catalogue::Catalogue;
use stanza_form::{FieldDesc, Form};
use tokens::{Next, next_token};

// What a text is read under, beside its fields: the description that they are of, a catalogue of type names, and the origin.
#[derive(Clone, Copy)]
pub struct Under<'a> {
    pub s: &'a [u8],
    pub c: Catalogue<'a>,
    pub origin: &'a [u8],
    pub ghost short: { length s.now ≤ 8192 },
    pub ghost whole: { is_wire_name origin.now ≡ true },
}

// The answer for a value, with the tokens from j on left.
fn before(v: Option<usize>, j: usize) -> Result<(usize, usize), Lack>
    ensures { result ≡ placed_at v j }
{
    match v {
        Some(m) => Ok((m, j)),
        None => Err(Lack::Fault),
    }
}

// The answer for all tokens; none is left from j on.
fn all(r: Result<usize, Lack>, j: usize) -> Result<(usize, usize), Lack>
    ensures { result ≡ got_at r j }
{
    match r {
        Ok(m) => Ok((m, j)),
        Err(why) => Err(why),
    }
}

// The answer if no token is left: only N[O] may take none.
fn none_left(f: Form, n: usize, i: usize) -> Result<(usize, usize), Lack>
    ensures { (c : List TypeName) (b t : List ℕ) (l : List Symbol) (o : List ℕ) → i ≤ length t → tokens (drop i t) ≡ [] → takes_one (rule_of c (kind_of l f)) ≡ true → Gives b b n t result (read_field c (kind_of l f) o []) }
{
    if let Form::Name(m) = f {
        if stanza_form::is_optional(m) {
            return Ok((n, i));
        }
    }
    Err(Lack::Missing)
}

// Reads a field that takes one token.
fn one_token(
    out: &mut [u8],
    at: usize,
    d: FieldDesc,
    u: &Under<'_>,
    t: &[u8],
    i: usize,
) -> Result<(usize, usize), Lack>
    requires room { at < 2 ^ 30 }
    requires usable { Usable u.now.s.now d }
    requires place { i ≤ length t.now }
    requires text { length t.now ≤ 1048576 }
    requires one { takes_one (rule_of (names_in u.now.c) (kind_for u.now.s.now d)) ≡ true }
    ensures { Gives out.old out.new at t.now result (read_field (names_in u.now.c) (kind_for u.now.s.now d) u.now.origin.now (tokens (drop i t.now))) }
{
    match next_token(t, i) {
        None => none_left(d.form, at, i),
        Some(Next::Bare(a, e)) => before(value::of_bare(out, at, d, u, &t[a..e]), e),
        Some(Next::Quoted(a, e)) => before(value::of_quoted(out, at, d.form, &t[a..e]), e + 1),
        Some(Next::Broken) => Err(Lack::Fault),
    }
}

// Reads the next string.
fn string(out: &mut [u8], at: usize, t: &[u8], i: usize) -> Result<(usize, usize), Lack>
    requires room { at < 2 ^ 30 }
    requires place { i ≤ length t.now }
    requires text { length t.now ≤ 1048576 }
    ensures gives { Gives out.old out.new at t.now result (one_token read_string (tokens (drop i t.now))) }
    ensures onward { Onward out.old out.new i result }
{
    match next_token(t, i) {
        None => Err(Lack::Missing),
        Some(Next::Bare(a, e)) => before(text::read::string(out, at, &t[a..e], false), e),
        Some(Next::Quoted(a, e)) => before(text::read::string(out, at, &t[a..e], true), e + 1),
        Some(Next::Broken) => Err(Lack::Fault),
    }
}

// Reads the strings of all tokens that are left, at least one.
fn strings(out: &mut [u8], at: usize, t: &[u8], i: usize) -> Result<(usize, usize), Lack>
    requires room { at < 2 ^ 29 }
    requires place { i ≤ length t.now }
    requires text { length t.now ≤ 1048576 }
    ensures { (c : List TypeName) (o : List ℕ) → Gives out.old out.new at t.now result (read_field c strs o (tokens (drop i t.now))) }
{
    let mut m = at;
    let mut j = i;
    loop {
        match string(out, m, t, j) {
            Ok((p, k)) => {
                m = p;
                j = k;
            }
            Err(Lack::Missing) => {
                if m <= at {
                    return Err(Lack::Missing);
                }
                return Ok((m, j));
            }
            Err(Lack::Fault) => return Err(Lack::Fault),
        }
    }
}

// Reads a field from the tokens from i on: the place after its octets in the buffer, and the place after its tokens.
pub fn read_field(
    out: &mut [u8],
    at: usize,
    d: FieldDesc,
    u: &Under<'_>,
    t: &[u8],
    i: usize,
) -> Result<(usize, usize), Lack>
    requires room { at < 2 ^ 29 }
    requires usable { Usable u.now.s.now d }
    requires place { i ≤ length t.now }
    requires text { length t.now ≤ 1048576 }
    ensures { Gives out.old out.new at t.now result (read_field (names_in u.now.c) (kind_for u.now.s.now d) u.now.origin.now (tokens (drop i t.now))) }
{
    match d.form {
        Form::Bitmap => before(bitmap::read::read(out, at, &u.c, &t[i..]), t.len()),
        Form::Strs => strings(out, at, t, i),
        Form::Base64 => all(base64_rest(out, at, &t[i..]), t.len()),
        Form::Hex => all(hex_rest(out, at, &t[i..]), t.len()),
        _ => one_token(out, at, d, u, t, i),
    }
}
