// A line of a stanza: what it does, given the lines before it.
#![tactic(auto, using(stanza_words::proofs::Laws::run_within))]

ghost use Rattle.std.specs.Prelude.{◌≤◌, length, eqb, ◌≡◌, not, cond, List, Some};
ghost use Rattle.std.specs.List.{list_any};
ghost use Rattle.std.proofs.Math.Seq.{slice};
ghost use Rattle.format.specs.Field.{Symbol, tail};
ghost use Rattle.stanza_form.specs.Forms.{kind_of};
ghost use Rattle.format.specs.Grammar.{header_line, field_line};
ghost use Rattle.format.specs.Judge.{Description, after_header, faulty, of_header, of_field_line, as_set, line_verdict};
ghost use Rattle.octets.specs.Octets.{part_in};
ghost use Rattle.stanza_grammar.specs.Grammar.{field_line_in, Places};
ghost use Rattle.stanza_line.specs.declared.Seen.TheVariants.{Nothing};
ghost use Rattle.stanza_line.specs.Verdict.{
  refusal_of,
  refusal_number,
  header_verdict,
  field_verdict,
  VerdictWithin,
  same_text,
  progress_of,
  tail_in,
  Stands,
  step_of,
  Due,
};

use octets::Class;
use stanza_form::{FieldDesc, Form};
use stanza_grammar::FieldParts;
use stanza_types::Misuse;

// The header: where its name lies, the type's number, and where the free text lies.
#[derive(Clone, Copy)]
pub struct HeaderDesc {
    pub name_at: u16,
    pub name_end: u16,
    pub number: u16,
    pub text_at: u16,
    pub text_end: u16,
}

// Where a name lies.
#[derive(Clone, Copy)]
pub struct Span {
    pub at: u16,
    pub end: u16,
}

// A field, and where its name lies.
#[derive(Clone, Copy)]
pub struct NewField {
    pub field: FieldDesc,
    pub name: Span,
}

// Why a line is refused.
#[derive(Clone, Copy)]
pub enum Refusal {
    Malformed,
    Unknown,
    Forbidden,
    TooMany,
}

impl Refusal {
    // The refusal's number in document 01.
    pub fn number(self) -> u8
        ensures { result ≡ refusal_number self }
    {
        match self {
            Refusal::Malformed => 2,
            Refusal::Unknown => 3,
            Refusal::Forbidden => 4,
            Refusal::TooMany => 5,
        }
    }
}

impl From<Misuse> for Refusal {
    ghost from_gives = { λ m r. r ≡ refusal_of m };

    fn from(m: Misuse) -> Refusal {
        match m {
            Misuse::Malformed => Refusal::Malformed,
            Misuse::Unknown => Refusal::Unknown,
            Misuse::Forbidden => Refusal::Forbidden,
        }
    }
}

// What came before a line: nothing that counts; the header, and fields that are no tail; or these and a tail.
#[derive(Clone, Copy)]
pub enum Seen {
    Nothing,
    Header,
    Tail,
}

impl Seen {
    // What was seen once a field of a form follows the header and no tail.
    pub fn after(f: Form) -> Seen
        ensures header { (d : Description) → progress_of result d ≡ after_header d }
        ensures tail { (l : List Symbol) → tail_in result ≡ tail (kind_of l f) }
    {
        if stanza_form::is_tail(f) {
            Seen::Tail
        } else {
            Seen::Header
        }
    }
}

// What a line does that is not refused: nothing, or it is the header, or one more field.
#[derive(Clone, Copy)]
pub enum Step {
    Skip,
    Head(HeaderDesc),
    Add(NewField),
}

// The verdict on the header line from `at` to e, whose first nonblank is at i.
fn header_verdict(s: &[u8], at: usize, i: usize, e: usize) -> Result<HeaderDesc, Refusal>
    requires from { at ≤ i }
    requires to { i ≤ e }
    requires within { e ≤ length s.now }
    requires short { length s.now ≤ 8192 }
    ensures { header_verdict s.now result ≡ cond (not (eqb i at)) (faulty 2) (of_header (header_line e (slice i e s.now))) }
{
    if at < i {
        return Err(Refusal::Malformed);
    }
    let x = stanza_grammar::header_line(s, i, e).ok_or(Refusal::Malformed)?;
    let n = x.number;
    if n < 1 || 65535 < n {
        return Err(Refusal::Forbidden);
    }
    Ok(HeaderDesc {
        name_at: i as u16,
        name_end: x.name_end as u16,
        number: n as u16,
        text_at: x.text_at as u16,
        text_end: e as u16,
    })
}

// The verdict on the field line from i to e, whose parts are x by the grammar.
fn field_meant(s: &[u8], i: usize, e: usize, x: FieldParts) -> Result<NewField, Refusal>
    requires places { Places i e x }
    requires within { e ≤ length s.now }
    requires short { length s.now ≤ 8192 }
    ensures within { VerdictWithin s.now result }
    ensures value { (d : Description) → field_verdict s.now d result ≡ of_field_line d (field_line_in s.now i e (Some x)) }
{
    let form = stanza_types::meaning_of(&s[i..x.type_end], s, x.qualifiers_at, x.qualifiers_end)?;
    let field = FieldDesc {
        form,
        qualifiers_at: x.qualifiers_at as u16,
        qualifiers_end: x.qualifiers_end as u16,
        text_at: x.text_at as u16,
        text_end: e as u16,
    };
    let name = Span {
        at: x.name_at as u16,
        end: x.name_end as u16,
    };
    Ok(NewField { field, name })
}

// Whether the field line from `at`, whose first nonblank is at i, begins as it must not: in a file without a blank, stored with one.
fn is_out(in_file: bool, at: usize, i: usize) -> bool
    requires { at ≤ i }
    ensures { as_set in_file (not (eqb i at)) ≡ not result }
{
    if in_file { i <= at } else { at < i }
}

// The verdict on the field line from `at` to e, whose first nonblank is at i.
fn field_verdict(
    s: &[u8],
    in_file: bool,
    at: usize,
    i: usize,
    e: usize,
) -> Result<NewField, Refusal>
    requires from { at ≤ i }
    requires to { i ≤ e }
    requires within { e ≤ length s.now }
    requires short { length s.now ≤ 8192 }
    ensures within { VerdictWithin s.now result }
    ensures value { (d : Description)
        → field_verdict s.now d result ≡ cond (as_set in_file (not (eqb i at))) (of_field_line d (field_line e (slice i e s.now))) (faulty 2) }
{
    if is_out(in_file, at, i) {
        return Err(Refusal::Malformed);
    }
    let x = stanza_grammar::field_line(s, i, e).ok_or(Refusal::Malformed)?;
    field_meant(s, i, e, x)
}

// Whether one of the names is a text.
fn name_again(s: &[u8], names: &[Span], t: &[u8]) -> bool
    ensures { result ≡ list_any (λ x. same_text (slice x.at x.end s.now) t.now) names.now }
{
    for x in names {
        if same_name(s, *x, t) {
            return true;
        }
    }
    false
}

// Whether a name is not empty and is the same as a text, letters' case ignored.
fn same_name(s: &[u8], x: Span, t: &[u8]) -> bool
    ensures { result ≡ same_text (slice x.at x.end s.now) t.now }
{
    let a = usize::from(x.at);
    let e = usize::from(x.end).min(s.len());
    if e <= a {
        return false;
    }
    if t.len() < 16 {
        return stanza_words::same(true, &s[a..e], t);
    }
    stanza_words::same_long(true, &s[a..e], t)
}

// What the line from at to e, of a file or stored, does after what came before it: fields with these names.
pub fn line_step(
    s: &[u8],
    in_file: bool,
    at: usize,
    e: usize,
    seen: Seen,
    names: &[Span],
) -> Result<Step, Refusal>
    requires from { at ≤ e }
    requires to { e ≤ length s.now }
    requires short { length s.now ≤ 8192 }
    ensures due { Due s.now seen (length names.now) result }
    ensures verdict { (d : Description) → Stands s.now d seen names.now
        → step_of s.now (progress_of seen d) result ≡ line_verdict in_file (progress_of seen d) (part_in s.now at e) }
{
    let i = at + octets::skip(&s[at..e], Class::Blank);
    if ignored(&s[i..e]) {
        return Ok(Step::Skip);
    }
    if let Seen::Nothing = seen {
        let x = header_verdict(s, at, i, e)?;
        return Ok(Step::Head(x));
    }
    let x = field_verdict(s, in_file, at, i, e)?;
    field_step(s, x, seen, names)
}

// Whether a line is ignored: it is blank, or its first nonblank, with which t begins, is `#`.
fn ignored(t: &[u8]) -> bool
    ensures { result ≡ Rattle.format.specs.Judge.ignored t.now }
{
    t.is_empty() || t[0] == b'#'
}

// What a good field line does after the header and the fields with these names.
fn field_step(s: &[u8], x: NewField, seen: Seen, names: &[Span]) -> Result<Step, Refusal>
    requires within { VerdictWithin s.now (Ok x) }
    requires after { seen ≡ Nothing → ⊥ }
    ensures due { Due s.now seen (length names.now) result }
    ensures verdict { (d : Description) → Stands s.now d seen names.now → step_of s.now (progress_of seen d) result ≡ field_verdict s.now d (Ok x) }
{
    if let Seen::Tail = seen {
        return Err(Refusal::Forbidden);
    }
    let a = usize::from(x.name.at);
    let e = usize::from(x.name.end);
    if name_again(s, names, &s[a..e]) {
        return Err(Refusal::Forbidden);
    }
    if 64 <= names.len() {
        return Err(Refusal::TooMany);
    }
    Ok(Step::Add(x))
}
