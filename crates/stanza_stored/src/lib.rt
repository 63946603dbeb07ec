// The judge of a stored description: counted strings stand for the lines of a stanza.
#![tactic(auto)]

ghost use Rattle.std.specs.Prelude.{◌≤◌, ◌≡◌, length};
ghost use Rattle.format.specs.Octets.{same_octets};
ghost use Rattle.format.specs.Stored.{tag, as_stored};
ghost use Rattle.stanza_judge.specs.Stanza.{Outlined};
ghost use Rattle.stanza_stored.specs.Stored.{fault_number, fault_place, Checked, Starts, lent_as};

use stanza_judge::Outline;

// Why no line is judged: the whole is too long, the edition is another, a string is cut short (its number), or the tag is missing.
#[derive(Clone, Copy)]
enum Fault {
    TooLong,
    Edition,
    Cut(u16),
    NoTag,
}

impl Fault {
    // The refusal: its number, and the number of the string at fault.
    fn outline(self) -> Outline
        ensures { result ≡ record { number = fault_number self; line = fault_place self; count = 0 } }
    {
        let (number, line) = match self {
            Fault::TooLong => (1, 0),
            Fault::Edition => (16, 0),
            Fault::Cut(k) => (8, k),
            Fault::NoTag => (14, 1),
        };
        Outline {
            number,
            line,
            count: 0,
        }
    }
}

// The number of the string that is cut short, which is the last.
fn cut_string(s: &[u8]) -> Option<u16>
    requires { length s.now ≤ 8192 }
    ensures { Checked s.now result }
{
    let mut i = 0;
    // the number of the string whose count is at i
    let mut n: u16 = 1;
    while i < s.len() {
        let k = usize::from(s[i]);
        if s.len() - i <= k {
            return Some(n);
        }
        i += 1 + k;
        n += 1;
    }
    None
}

// Whether a string is the tag.
fn is_tag(t: &[u8]) -> bool
    ensures { result ≡ same_octets t.now tag }
{
    stanza_words::same(false, t, b"RRTYPE=1")
}

// Looks at what comes before the lines: the length of the whole, the edition, that no string is cut short, and the tag. Answers
// where the first line begins.
fn start_of(s: &[u8], edition: usize) -> Result<usize, Fault>
    ensures { Starts edition s.now result }
{
    if 8192 < s.len() {
        return Err(Fault::TooLong);
    }
    if edition != 13 {
        return Err(Fault::Edition);
    }
    if let Some(k) = cut_string(s) {
        return Err(Fault::Cut(k));
    }
    if s.len() < 2 {
        return Err(Fault::NoTag);
    }
    let e = 1 + usize::from(s[0]);
    if is_tag(&s[1..e]) {
        return Ok(e + 1);
    }
    Err(Fault::NoTag)
}

// Judges a stored description of an edition, and stores the codes of its fields in the caller's array.
pub fn judged_stored(s: &[u8], edition: usize, codes: &mut [u64; 64]) -> Outline
    requires { length codes.old ≡ 64 }
    ensures { Outlined (as_stored edition s.now) s.now codes.new result }
{
    match start_of(s, edition) {
        Err(fault) => fault.outline(),
        // the tag is string 1
        Ok(at) => stanza_judge::unpacked(stanza_judge::judged_lines(s, false, at, 1, codes)),
    }
}

// Judges a description of either form, and stores the codes of its fields in the caller's array. A file has no edition.
pub fn judged(s: &[u8], in_file: bool, edition: usize, codes: &mut [u64; 64]) -> Outline
    requires { length codes.old ≡ 64 }
    ensures { Outlined (lent_as in_file edition s.now) s.now codes.new result }
{
    if in_file {
        return stanza_judge::judged_outline(s, codes);
    }
    judged_stored(s, edition, codes)
}
