// What a type and its qualifiers mean.
#![tactic(auto)]

ghost use Rattle.std.specs.Prelude.{ℕ, ◌≤◌, ◌<◌, ◌^◌, length, ◌≡◌, List, [], None, Some, Err};
ghost use Rattle.format.specs.Types.{allowed, symbols, meaning_of};
ghost use Rattle.stanza_types.specs.Types.{meant_in, meaning_by, qualified_in, meaning_in, marks_of, name_form, made_of, MadeBy};
ghost use Rattle.stanza_form.specs.Forms.{taken_by, listed};

use stanza_form::{FieldType, Form};
use stanza_words::{Test, Words, any};

// Why a type and its qualifiers make no kind of field: they break the grammar, are unknown, or are not allowed.
#[derive(Clone, Copy)]
pub enum Misuse {
    Malformed,
    Unknown,
    Forbidden,
}

// Why the qualifiers from a to b, which their type does not take, are refused.
fn refused(s: &[u8], a: usize, b: usize) -> Misuse
    requires from { a ≤ b }
    requires to { b ≤ length s.now }
    ensures { meant_in s.now a b (Err result) ≡ meaning_by (λ qs. None) s.now a b }
{
    if any(Test::Malformed, s, a, b) {
        return Misuse::Malformed;
    }
    if any(Test::Unknown, s, a, b) {
        return Misuse::Unknown;
    }
    Misuse::Forbidden
}

// The first number that an integer of w octets cannot hold.
pub fn limit(w: u8) -> u64
    requires { w ≤ 4 }
    ensures { result ≡ 256 ^ w }
{
    1 << (8 * w)
}

// What an integer of w octets means with the qualifiers from a to b.
fn symbols_meant(s: &[u8], a: usize, b: usize, w: u8) -> Result<Form, Misuse>
    requires some { a < b }
    requires to { b ≤ length s.now }
    requires narrow { w ≤ 4 }
    requires short { length s.now ≤ 8192 }
    ensures { meant_in s.now a b result ≡ meaning_by (allowed (symbols w)) s.now a b }
{
    let m = limit(w);
    if stanza_distinct::plain_symbols(m, s, a, b) {
        return Ok(Form::Int(w));
    }
    if any(Test::NotSymbol(m), s, a, b) {
        return Err(refused(s, a, b));
    }
    if stanza_distinct::twice(true, s, a, b) {
        return Err(Misuse::Forbidden);
    }
    Ok(Form::Int(w))
}

// The marks of a name in one octet.
fn marks(c: bool, m: bool, l: bool, o: bool) -> u8
    ensures { result ≡ marks_of c m l o }
{
    let low = u8::from(c) | u8::from(m) * 2;
    let high = u8::from(l) * 4 | u8::from(o) * 8;
    low | high
}

// The form of a name with the qualifiers from a to b.
fn name_form(s: &[u8], a: usize, b: usize) -> Form
    requires from { a ≤ b }
    requires to { b ≤ length s.now }
    ensures { result ≡ name_form s.now a b }
{
    let c = any(Test::IsWord(b'C'), s, a, b);
    let m = any(Test::IsWord(b'A'), s, a, b);
    let l = any(Test::IsWord(b'L'), s, a, b);
    let o = any(Test::IsWord(b'O'), s, a, b);
    Form::Name(marks(c, m, l, o))
}

// What the words of a type make: at least one is given, and none twice.
fn made(s: &[u8], a: usize, b: usize, w: Words) -> Result<Form, Misuse>
    requires from { a ≤ b }
    requires to { b ≤ length s.now }
    ensures { result ≡ made_of s.now a b w }
{
    match w {
        Words::OnR => Ok(Form::Bitmap),
        Words::OnN => Ok(name_form(s, a, b)),
        Words::OnS => {
            let m = any(Test::IsWord(b'M'), s, a, b);
            let x = any(Test::IsWord(b'X'), s, a, b);
            match (m, x) {
                (true, true) => Err(Misuse::Forbidden),
                (true, false) => Ok(Form::Strs),
                (false, true) => Ok(Form::Raw),
                (false, false) => Ok(Form::Str),
            }
        }
        Words::OnX => Ok(Form::Hexc),
    }
}

// What one letter as qualifier makes of a type that takes words, if it is known to.
fn kind_by_letter(w: Words, x: u8) -> Option<Form>
    ensures { MadeBy w x result }
{
    match (w, x) {
        (Words::OnR, b'L') => Some(Form::Bitmap),
        (Words::OnN, b'C') => Some(Form::Name(1)),
        (Words::OnN, b'A') => Some(Form::Name(2)),
        (Words::OnN, b'L') => Some(Form::Name(4)),
        (Words::OnN, b'O') => Some(Form::Name(8)),
        (Words::OnS, b'M') => Some(Form::Strs),
        (Words::OnS, b'X') => Some(Form::Raw),
        (Words::OnX, b'C') => Some(Form::Hexc),
        _ => None,
    }
}

// A type that takes words, with the qualifiers from a to b. Most often there is just one, of one letter.
fn words_meant(s: &[u8], a: usize, b: usize, w: Words) -> Result<Form, Misuse>
    requires some { a < b }
    requires to { b ≤ length s.now }
    requires short { length s.now ≤ 8192 }
    ensures { meant_in s.now a b result ≡ meaning_by (allowed (listed w)) s.now a b }
{
    if b - a == 1
        && let Some(f) = kind_by_letter(w, s[a])
    {
        return Ok(f);
    }
    listed_meant(s, a, b, w)
}

// The same, by testing all the qualifiers.
fn listed_meant(s: &[u8], a: usize, b: usize, w: Words) -> Result<Form, Misuse>
    requires some { a < b }
    requires to { b ≤ length s.now }
    requires short { length s.now ≤ 8192 }
    ensures { meant_in s.now a b result ≡ meaning_by (allowed (listed w)) s.now a b }
{
    if any(Test::NotWord(w), s, a, b) {
        return Err(refused(s, a, b));
    }
    if stanza_distinct::twice(false, s, a, b) {
        return Err(Misuse::Forbidden);
    }
    made(s, a, b, w)
}

// What a type means without qualifiers.
fn plain_meant(ty: Option<FieldType>) -> Result<Form, Misuse>
    ensures { (s : List ℕ) (a : ℕ) → meant_in s a a result ≡ Some (meaning_of (taken_by ty) []) }
{
    match ty {
        None => Err(Misuse::Unknown),
        Some(FieldType::Int1) => Ok(Form::Int(1)),
        Some(FieldType::Int2) => Ok(Form::Int(2)),
        Some(FieldType::Int4) => Ok(Form::Int(4)),
        Some(FieldType::Plain(f)) => Ok(f),
        Some(FieldType::Listed(Words::OnR)) => Ok(Form::Rrtype),
        Some(FieldType::Listed(Words::OnN)) => Ok(Form::Name(0)),
        Some(FieldType::Listed(Words::OnS)) => Ok(Form::Str),
        Some(FieldType::Listed(Words::OnX)) => Ok(Form::Hex),
    }
}

// What the type with a name means with the qualifiers from a to b of s.
pub fn meaning_of(name: &[u8], s: &[u8], a: usize, b: usize) -> Result<Form, Misuse>
    requires from { a ≤ b }
    requires to { b ≤ length s.now }
    requires short { length s.now ≤ 8192 }
    ensures { meant_in s.now a b result ≡ meaning_in name.now s.now a b }
{
    let ty = stanza_form::type_of(name);
    if a == b {
        return plain_meant(ty);
    }
    match ty {
        None => Err(untyped(s, a, b)),
        Some(t) => qualified(t, s, a, b),
    }
}

// Why an unknown type with the qualifiers from a to b is refused.
fn untyped(s: &[u8], a: usize, b: usize) -> Misuse
    requires from { a ≤ b }
    requires to { b ≤ length s.now }
    ensures { meant_in s.now a b (Err result) ≡ qualified_in None s.now a b }
{
    if any(Test::Malformed, s, a, b) {
        return Misuse::Malformed;
    }
    Misuse::Unknown
}

// What a type means with the qualifiers from a to b, of which there is at least one.
fn qualified(ty: FieldType, s: &[u8], a: usize, b: usize) -> Result<Form, Misuse>
    requires some { a < b }
    requires to { b ≤ length s.now }
    requires short { length s.now ≤ 8192 }
    ensures { meant_in s.now a b result ≡ qualified_in (taken_by (Some ty)) s.now a b }
{
    match ty {
        FieldType::Int1 => symbols_meant(s, a, b, 1),
        FieldType::Int2 => symbols_meant(s, a, b, 2),
        FieldType::Int4 => symbols_meant(s, a, b, 4),
        FieldType::Plain(_) => Err(refused(s, a, b)),
        FieldType::Listed(w) => words_meant(s, a, b, w),
    }
}
