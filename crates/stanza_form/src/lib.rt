// The forms of fields: the kinds of document 01 without their symbols. This room says what is true of each form: how it lies on
// the wire, its number in a code, and the word of its type.
#![tactic(auto)]

ghost use Rattle.std.specs.Prelude.{◌≡◌, [], ◌∷◌};
ghost use Rattle.format.specs.Octets.{same_octets};
ghost use Rattle.format.specs.Types.{type_rows, takes_of};
ghost use Rattle.stanza_form.specs.Forms.{optional_in, shape_of, parameter_of, tail_of, form_number, held_by, form_at, taken_by, longer};
ghost use Rattle.stanza_form.specs.Code.{field_with, field_at};

use stanza_words::Words;

// A form of field. The first three hold an octet: the number of octets of an integer or an EUI, or the marks C, A, L, O of a
// name as 1, 2, 4, 8. The tails come last. In this order one comparison tells either group.
#[derive(Clone, Copy)]
pub enum Form {
    Int(u8),
    Eui(u8),
    Name(u8),
    Rrtype,
    Dotted,
    Aa,
    Aaaa,
    Time,
    Str,
    Base32,
    Hexc,
    Bitmap,
    Strs,
    Raw,
    Base64,
    Hex,
}

// A field of a description: its form, where its qualifiers lie, and, while the stanza is judged, where its free text lies.
#[derive(Clone, Copy)]
pub struct FieldDesc {
    pub form: Form,
    pub qualifiers_at: u16,
    pub qualifiers_end: u16,
    pub text_at: u16,
    pub text_end: u16,
}

// The shapes on the wire: a fixed number of octets; the labels of a name; a count and its octets; counted strings to the end;
// octets to the end; the windows of a bitmap.
#[derive(Clone, Copy)]
pub enum Shape {
    Octets,
    Labels,
    Counted,
    Strings,
    Rest,
    Windows,
}

// Whether O is among the marks of a name.
pub fn is_optional(marks: u8) -> bool
    ensures { result ≡ optional_in marks }
{
    8 <= marks
}

// The layout of a form: its shape, and the number of octets, the least count, or the marks of a name.
#[derive(Clone, Copy)]
pub struct Layout {
    pub shape: Shape,
    pub parameter: u8,
}

// Makes a layout.
fn laid(shape: Shape, parameter: u8) -> Layout
    ensures shape { result.shape ≡ shape }
    ensures parameter { result.parameter ≡ parameter }
{
    Layout { shape, parameter }
}

// The layout of a form.
pub fn layout_of(f: Form) -> Layout
    ensures shape { result.shape ≡ shape_of f }
    ensures parameter { result.parameter ≡ parameter_of f }
{
    match f {
        Form::Int(w) | Form::Eui(w) => laid(Shape::Octets, w),
        Form::Name(m) => laid(Shape::Labels, m),
        Form::Rrtype => laid(Shape::Octets, 2),
        Form::Dotted | Form::Time => laid(Shape::Octets, 4),
        Form::Aa => laid(Shape::Octets, 8),
        Form::Aaaa => laid(Shape::Octets, 16),
        Form::Str => laid(Shape::Counted, 0),
        Form::Base32 => laid(Shape::Counted, 1),
        Form::Hexc => laid(Shape::Counted, 0),
        Form::Bitmap => laid(Shape::Windows, 0),
        Form::Strs => laid(Shape::Strings, 0),
        Form::Raw | Form::Base64 | Form::Hex => laid(Shape::Rest, 0),
    }
}

// Whether a form is a tail: its shape ends only where the octets end.
pub fn is_tail(f: Form) -> bool
    ensures { result ≡ tail_of (shape_of f) (parameter_of f) }
{
    let y = layout_of(f);
    match y.shape {
        Shape::Octets | Shape::Counted => false,
        Shape::Labels => is_optional(y.parameter),
        Shape::Strings | Shape::Rest | Shape::Windows => true,
    }
}

// The number of a form in a code.
fn number_of(f: Form) -> u8
    ensures { result ≡ form_number f }
{
    match f {
        Form::Int(_) => 0,
        Form::Eui(_) => 1,
        Form::Name(_) => 2,
        Form::Rrtype => 3,
        Form::Dotted => 4,
        Form::Aa => 5,
        Form::Aaaa => 6,
        Form::Time => 7,
        Form::Str => 8,
        Form::Base32 => 9,
        Form::Hexc => 10,
        Form::Bitmap => 11,
        Form::Strs => 12,
        Form::Raw => 13,
        Form::Base64 => 14,
        Form::Hex => 15,
    }
}

// The octet that a form holds, or 0.
fn held_by(f: Form) -> u8
    ensures { result ≡ held_by f }
{
    match f {
        Form::Int(w) | Form::Eui(w) | Form::Name(w) => w,
        _ => 0,
    }
}

// The form with the number n, which holds `held`.
#[tactic(auto, unfolding(crate::specs::Forms::form_at))]
fn form_at(n: u8, held: u8) -> Form
    ensures { result ≡ form_at n held }
{
    match n {
        0 => Form::Int(held),
        1 => Form::Eui(held),
        2 => Form::Name(held),
        3 => Form::Rrtype,
        4 => Form::Dotted,
        5 => Form::Aa,
        6 => Form::Aaaa,
        7 => Form::Time,
        8 => Form::Str,
        9 => Form::Base32,
        10 => Form::Hexc,
        11 => Form::Bitmap,
        12 => Form::Strs,
        13 => Form::Raw,
        14 => Form::Base64,
        _ => Form::Hex,
    }
}

// A code, from its parts: a field in 64 bits, so that an array of fields is an array of numbers, which can be lent.
fn together(n: u8, held: u8, at: u16, end: u16) -> u64
    ensures { field_at result ≡ field_with (form_at n held) at end }
{
    let form = u64::from(n) + u64::from(held) * 256;
    let from = u64::from(at) * 65536;
    let to = u64::from(end) * 4294967296;
    form + from + to
}

// The code of a field of the given form with the qualifiers from `at` to `end`.
pub fn code(form: Form, at: u16, end: u16) -> u64
    ensures { field_at result ≡ field_with form at end }
{
    together(number_of(form), held_by(form), at, end)
}

// The field that a code stands for.
pub fn field(c: u64) -> FieldDesc
    ensures { result ≡ field_at c }
{
    FieldDesc {
        form: form_at((c % 256) as u8, (c / 256 % 256) as u8),
        qualifiers_at: (c / 65536 % 65536) as u16,
        qualifiers_end: (c / 4294967296 % 65536) as u16,
        text_at: 0,
        text_end: 0,
    }
}

// A field type: an integer, which takes symbols; one that takes no qualifier; or one that takes words.
#[derive(Clone, Copy)]
pub enum FieldType {
    Int1,
    Int2,
    Int4,
    Plain(Form),
    Listed(Words),
}

// Whether a text is the word w.
fn is_word(t: &[u8], w: &[u8]) -> bool
    ensures { result ≡ same_octets t.now w.now }
{
    t.len() == w.len() && t.iter().zip(w).all(|(x, y)| *x == *y)
}

// The type with a name. Types of one letter are recognized directly.
pub fn type_of(t: &[u8]) -> Option<FieldType>
    ensures { taken_by result ≡ takes_of type_rows t.now }
{
    if t.len() == 1 {
        return letter_type(t[0]);
    }
    word_type(t)
}

// The type of one letter.
fn letter_type(x: u8) -> Option<FieldType>
    ensures { taken_by result ≡ takes_of type_rows (x ∷ []) }
{
    match x {
        b'R' => Some(FieldType::Listed(Words::OnR)),
        b'N' => Some(FieldType::Listed(Words::OnN)),
        b'S' => Some(FieldType::Listed(Words::OnS)),
        b'X' => Some(FieldType::Listed(Words::OnX)),
        b'A' => Some(FieldType::Plain(Form::Dotted)),
        b'T' => Some(FieldType::Plain(Form::Time)),
        _ => None,
    }
}

// The type with a name, among the types of more than one letter.
fn word_type(t: &[u8]) -> Option<FieldType>
    ensures { taken_by result ≡ takes_of (longer type_rows) t.now }
{
    if is_word(t, b"I1") {
        return Some(FieldType::Int1);
    }
    if is_word(t, b"I2") {
        return Some(FieldType::Int2);
    }
    if is_word(t, b"I4") {
        return Some(FieldType::Int4);
    }
    if is_word(t, b"AA") {
        return Some(FieldType::Plain(Form::Aa));
    }
    if is_word(t, b"AAAA") {
        return Some(FieldType::Plain(Form::Aaaa));
    }
    if is_word(t, b"B32") {
        return Some(FieldType::Plain(Form::Base32));
    }
    if is_word(t, b"B64") {
        return Some(FieldType::Plain(Form::Base64));
    }
    if is_word(t, b"EUI48") {
        return Some(FieldType::Plain(Form::Eui(6)));
    }
    if is_word(t, b"EUI64") {
        return Some(FieldType::Plain(Form::Eui(8)));
    }
    if is_word(t, b"X6") {
        return Some(FieldType::Plain(Form::Eui(6)));
    }
    if is_word(t, b"X8") {
        return Some(FieldType::Plain(Form::Eui(8)));
    }
    None
}
