// The grammar of a header and of a field line, without that of its qualifiers.
#![tactic(auto, using(stanza_words::proofs::Laws::run_within))]

ghost use Rattle.std.specs.Prelude.{◌≤◌, length, ◌≡◌};
ghost use Rattle.std.proofs.Math.Seq.{slice};
ghost use Rattle.format.specs.Grammar.{header_line, field_line, name_at, after_options, free_text_at, qualifiers_at, field_name_at};
ghost use Rattle.stanza_grammar.specs.Grammar.{header_in, field_line_in, HeaderWithin, LineFieldWithin};
ghost use Rattle.stanza_grammar.specs.Parts.{
  begins,
  Within,
  cut_in,
  rest_in,
  text_in,
  number_after,
  text_after,
  number_in,
  DigitsWithin,
  brackets_in,
  BracketsWithin,
  named_in,
  NamedWithin,
  after_type,
};

use octets::Class;
use stanza_words::starts_with_letter;

// A header: the end of its name, its number, and where its free text begins.
#[derive(Clone, Copy)]
pub struct HeaderShape {
    pub name_end: usize,
    pub number: u64,
    pub text_at: usize,
}

// A field line: the end of its type, its qualifiers (none if both places are equal), its name, and where its free text begins.
#[derive(Clone, Copy)]
pub struct FieldParts {
    pub type_end: usize,
    pub qualifiers_at: usize,
    pub qualifiers_end: usize,
    pub name_at: usize,
    pub name_end: usize,
    pub text_at: usize,
}

// Digits: where they end, and their number.
#[derive(Clone, Copy)]
struct Digits {
    end: usize,
    number: u64,
}

// Where the qualifiers begin and end (equal if there are none), and where the rest begins.
#[derive(Clone, Copy)]
struct Brackets {
    at: usize,
    end: usize,
    rest: usize,
}

// Where a field's name begins and ends (equal if there is none).
#[derive(Clone, Copy)]
struct Named {
    at: usize,
    end: usize,
}

// Whether a text begins with the octet b.
fn begins(t: &[u8], b: u8) -> bool
    ensures { result ≡ begins b t.now }
{
    t.first().is_some_and(|x| *x == b)
}

// The end of the name that starts at `at`.
fn name_end(s: &[u8], at: usize, end: usize) -> Option<usize>
    requires from { at ≤ end }
    requires to { end ≤ length s.now }
    ensures value { cut_in s.now at end result ≡ name_at (slice at end s.now) }
    ensures within { Within at end result }
{
    if !starts_with_letter(&s[at..end]) {
        return None;
    }
    let e = at + octets::skip(&s[at..end], Class::NameOctet);
    if e - at <= 63 {
        return Some(e);
    }
    None
}

// Where the free text of a line begins that has nothing else from i on: after one blank, or at the end if there is none.
fn free_text(s: &[u8], i: usize, end: usize) -> Option<usize>
    requires from { i ≤ end }
    requires to { end ≤ length s.now }
    ensures value { text_in s.now end result ≡ free_text_at end (slice i end s.now) }
    ensures within { Within i end result }
{
    if i == end {
        return Some(end);
    }
    if !Class::Blank.has(s[i]) || !octets::all_free(&s[i + 1..end]) {
        return None;
    }
    Some(i + 1)
}

// The number after `:`, and where the rest begins.
fn number_after(s: &[u8], i: usize, end: usize) -> Option<Digits>
    requires from { i ≤ end }
    requires to { end ≤ length s.now }
    ensures value { number_in s.now end result ≡ number_after (slice i end s.now) }
    ensures within { DigitsWithin end result }
{
    if !begins(&s[i..end], b':') {
        return None;
    }
    let e = i + 1 + octets::skip(&s[i + 1..end], Class::Digit);
    let number = octets::decimal(&s[i + 1..e])?;
    Some(Digits { end: e, number })
}

// Where the rest begins, after `:` and letters if there are any.
fn after_options(s: &[u8], i: usize, end: usize) -> Option<usize>
    requires from { i ≤ end }
    requires to { end ≤ length s.now }
    ensures value { rest_in s.now end result ≡ after_options (slice i end s.now) }
    ensures within { Within i end result }
{
    if !begins(&s[i..end], b':') {
        return Some(i);
    }
    let e = i + 1 + octets::skip(&s[i + 1..end], Class::Letter);
    if e == i + 1 {
        return None;
    }
    Some(e)
}

// Where a header's free text begins, after the optional `:` and letters.
fn text_after(s: &[u8], i: usize, end: usize) -> Option<usize>
    requires from { i ≤ end }
    requires to { end ≤ length s.now }
    ensures value { text_in s.now end result ≡ text_after end (slice i end s.now) }
    ensures within { Within i end result }
{
    let j = after_options(s, i, end)?;
    free_text(s, j, end)
}

// The header in a line from at to end.
pub fn header_line(s: &[u8], at: usize, end: usize) -> Option<HeaderShape>
    requires from { at ≤ end }
    requires to { end ≤ length s.now }
    ensures value { header_in s.now at end result ≡ header_line end (slice at end s.now) }
    ensures within { HeaderWithin end result }
{
    let name_end = name_end(s, at, end)?;
    let digits = number_after(s, name_end, end)?;
    let text_at = text_after(s, digits.end, end)?;
    Some(HeaderShape {
        name_end,
        number: digits.number,
        text_at,
    })
}

// Where the qualifiers begin and end, and where the rest begins. Empty brackets are refused.
fn bracketed(s: &[u8], i: usize, end: usize) -> Option<Brackets>
    requires from { i ≤ end }
    requires to { end ≤ length s.now }
    ensures value { brackets_in s.now end result ≡ qualifiers_at end (slice i end s.now) }
    ensures within { BracketsWithin end result }
{
    if !begins(&s[i..end], b'[') {
        return Some(Brackets {
            at: i,
            end: i,
            rest: i,
        });
    }
    let e = i + 1 + octets::skip(&s[i + 1..end], Class::NotBracket);
    if e == i + 1 || !begins(&s[e..end], b']') {
        return None;
    }
    Some(Brackets {
        at: i + 1,
        end: e,
        rest: e + 1,
    })
}

// The name after `:`, or no name if there is no `:`.
fn field_name(s: &[u8], i: usize, end: usize) -> Option<Named>
    requires from { i ≤ end }
    requires to { end ≤ length s.now }
    ensures value { named_in s.now end result ≡ field_name_at (slice i end s.now) }
    ensures within { NamedWithin end result }
{
    if !begins(&s[i..end], b':') {
        return Some(Named { at: i, end: i });
    }
    let e = name_end(s, i + 1, end)?;
    Some(Named { at: i + 1, end: e })
}

// The field line from at to end whose type ends at e.
fn after_type(s: &[u8], at: usize, e: usize, end: usize) -> Option<FieldParts>
    requires type_from { at ≤ e }
    requires type_to { e ≤ end }
    requires to { end ≤ length s.now }
    ensures value { field_line_in s.now at end result ≡ after_type end (slice at e s.now) (slice e end s.now) }
    ensures within { LineFieldWithin at end result }
{
    let qualifiers = bracketed(s, e, end)?;
    let name = field_name(s, qualifiers.rest, end)?;
    let text_at = free_text(s, name.end, end)?;
    Some(FieldParts {
        type_end: e,
        qualifiers_at: qualifiers.at,
        qualifiers_end: qualifiers.end,
        name_at: name.at,
        name_end: name.end,
        text_at,
    })
}

// The field line from at to end; its leading blanks stand before at.
pub fn field_line(s: &[u8], at: usize, end: usize) -> Option<FieldParts>
    requires from { at ≤ end }
    requires to { end ≤ length s.now }
    ensures value { field_line_in s.now at end result ≡ field_line end (slice at end s.now) }
    ensures within { LineFieldWithin at end result }
{
    if !starts_with_letter(&s[at..end]) {
        return None;
    }
    let e = at + octets::skip(&s[at..end], Class::Alphanumeric);
    after_type(s, at, e, end)
}
