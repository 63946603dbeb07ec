// The judge of a stanza, in a file or stored, and the description that it finds.
#![tactic(auto)]

ghost use Rattle.std.specs.Prelude.{◌≤◌, ◌<◌, ◌≡◌, false, length};
ghost use Rattle.format.specs.Stored.{as_file};
ghost use Rattle.stanza_judge.specs.Stanza.{end_in, Whole, Begins, begun, outline_at, OutlinedAs, Outlined};

use stanza_line::{Seen, Span, Step};

// A judged description: 0, or a refusal's number and line; and how many fields were described.
#[derive(Clone, Copy)]
pub struct Outline {
    pub number: u8,
    pub line: u16,
    pub count: usize,
}

// After all lines, none of which is refused and n of which were fields: 2 if there was no field, else 0.
fn at_end(n: usize) -> u8
    ensures none { n ≡ 0 → result ≡ 2 }
    ensures some { 1 ≤ n → result ≡ 0 }
{
    if n == 0 { 2 } else { 0 }
}

// Where the line ends that begins at `at`: in a file before its LF; stored, as far on as the count before it says.
fn end_of_line(s: &[u8], in_file: bool, at: usize) -> usize
    requires within { at < length s.now }
    requires short { length s.now ≤ 8192 }
    requires whole { in_file ≡ false → Whole s.now at }
    ensures { result ≡ end_in in_file s.now at }
{
    if in_file {
        return octets::line_end(s, at);
    }
    at + usize::from(s[at - 1])
}

// A judged description in one number.
fn packed(number: u8, line: u16, count: usize) -> u64
    requires { count ≤ 64 }
    ensures { outline_at result ≡ record { number = number; line = line; count = count } }
{
    u64::from(number) * 4294967296 + u64::from(line) * 65536 + count as u64
}

// The judged description that a number stands for.
pub fn unpacked(r: u64) -> Outline
    ensures { result ≡ outline_at r }
{
    Outline {
        number: (r / 4294967296 % 256) as u8,
        line: (r / 65536 % 65536) as u16,
        count: (r % 65536) as usize,
    }
}

// Judges the lines from `first` on, `before` lines having come before them, and stores the codes of their fields in the caller's
// array. The answer is one number: a place in memory for it would take a register from the loop.
pub fn judged_lines(
    s: &[u8],
    in_file: bool,
    first: usize,
    before: u16,
    codes: &mut [u64; 64],
) -> u64
    requires room { length codes.old ≡ 64 }
    requires begins { Begins in_file s.now first before }
    ensures { OutlinedAs (begun in_file s.now first before) s.now codes.new (outline_at result) }
{
    let mut names = [Span { at: 0, end: 0 }; 64];
    let mut n = 0;
    let mut seen = Seen::Nothing;
    let mut at = first;
    let mut line = before;
    while at < s.len() {
        line += 1;
        let e = end_of_line(s, in_file, at);
        let r = stanza_line::line_step(s, in_file, at, e, seen, &names[..n]);
        at = e + 1;
        match r {
            Err(refusal) => return packed(refusal.number(), line, n),
            Ok(step) => match step {
                Step::Skip => {}
                Step::Head(_) => seen = Seen::Header,
                Step::Add(x) => {
                    let f = x.field;
                    codes[n] = stanza_form::code(f.form, f.qualifiers_at, f.qualifiers_end);
                    names[n] = x.name;
                    seen = Seen::after(f.form);
                    n += 1;
                }
            },
        }
    }
    packed(at_end(n), 0, n)
}

// Judges a stanza, and stores the codes of its fields in the caller's array.
pub fn judged_outline(s: &[u8], codes: &mut [u64; 64]) -> Outline
    requires { length codes.old ≡ 64 }
    ensures { Outlined (as_file s.now) s.now codes.new result }
{
    if 8192 < s.len() {
        return Outline {
            number: 1,
            line: 0,
            count: 0,
        };
    }
    let r = judged_lines(s, true, 0, 0, codes);
    unpacked(r)
}
