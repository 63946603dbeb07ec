// Octets in a slice: their classes, the longest run of a class, and decimal numbers.
#![tactic(auto)]

pub mod integer;

ghost use Rattle.std.specs.Prelude.{◌+◌, ◌-◌, ◌≤◌, length, leb, ◌&&◌, [], ◌∷◌, ◌≡◌};
ghost use Rattle.std.proofs.Math.Seq.{slice};
ghost use Rattle.format.specs.Lists.{span, all_of};
ghost use Rattle.format.specs.Octets.{letter, lowered, same_octets};
ghost use Rattle.format.specs.Number.{decimal_of};
ghost use Rattle.octets.specs.Octets.{in_class, line_end};
ghost use Rattle.octets.specs.declared.Class.TheVariants.{NotNewline, FreeText};

// The classes of octets in a stanza; see specs/Octets.antt.
#[derive(Clone, Copy)]
pub enum Class {
    NotNewline,
    Blank,
    Digit,
    Letter,
    Alphanumeric,
    NameOctet,
    NotBracket,
    NotComma,
    FreeText,
}

impl Class {
    // Whether an octet is in the class.
    pub fn has(self, b: u8) -> bool
        ensures { result ≡ in_class self b }
    {
        match self {
            Class::NotNewline => b != b'\n',
            Class::Blank => b == b' ' || b == b'\t',
            Class::Digit => b.is_ascii_digit(),
            Class::Letter => is_letter(b),
            Class::Alphanumeric => is_letter(b) || b.is_ascii_digit(),
            // letters first: most octets of names are
            Class::NameOctet => {
                if is_letter(b) {
                    return true;
                }
                b.is_ascii_digit() || b == b'-'
            }
            Class::NotBracket => b != b']',
            Class::NotComma => b != b',',
            Class::FreeText => b' ' <= b && b <= 254,
        }
    }
}

// Whether an octet is a letter. A capital differs from its small letter by one bit, so one range is tested.
fn is_letter(b: u8) -> bool
    ensures { result ≡ letter b }
{
    (b | 32).is_ascii_lowercase()
}

// The octet, in lower case if it is a letter.
pub fn lower(b: u8) -> u8
    ensures { result ≡ lowered b }
{
    b.to_ascii_lowercase()
}

// Whether the octets are the octet b alone.
pub fn is_alone(xs: &[u8], b: u8) -> bool
    ensures { result ≡ same_octets xs.now (b ∷ []) }
{
    match xs {
        [x] => *x == b,
        _ => false,
    }
}

// How many octets from the first on are in the class, up to one that is not.
pub fn skip(xs: &[u8], c: Class) -> usize
    ensures { result ≡ length (span (in_class c) xs.now).front }
{
    for (i, b) in xs.iter().enumerate() {
        if !c.has(*b) {
            return i;
        }
    }
    xs.len()
}

// Whether all octets are in the class. The loop has no early exit, so that many are tested at once.
fn all_in(xs: &[u8], c: Class) -> bool
    ensures { result ≡ all_of (in_class c) xs.now }
{
    let mut all = true;
    for b in xs {
        all &= c.has(*b);
    }
    all
}

// Whether at least 16 octets are left from i on and the first 16 are all in the class.
fn goes_on(xs: &[u8], i: usize, c: Class) -> bool
    requires { i ≤ length xs.now }
    ensures { result ≡ leb 16 (length xs.now - i) && all_of (in_class c) (slice i (i + 16) xs.now) }
{
    16 <= xs.len() - i && all_in(&xs[i..i + 16], c)
}

// The same number as `skip` finds, found quickly if it is large. Where the second octet is not in the class it is small.
pub fn skip_far(xs: &[u8], c: Class) -> usize
    ensures { result ≡ length (span (in_class c) xs.now).front }
{
    if xs.len() < 16 || !c.has(xs[1]) {
        return skip(xs, c);
    }
    let mut j = 0;
    while goes_on(xs, j, c) {
        j += 16;
    }
    j + skip(&xs[j..], c)
}

// A place in the same line as i: 8 octets on if none of them is LF, else i.
fn eight_on(xs: &[u8], i: usize) -> usize
    requires { i ≤ length xs.now }
    ensures at_least { i ≤ result }
    ensures within { result ≤ length xs.now }
    ensures same_line { line_end xs.now result ≡ line_end xs.now i }
{
    if 8 <= xs.len() - i && all_in(&xs[i..i + 8], Class::NotNewline) {
        return i + 8;
    }
    i
}

// The place of the next LF from i on, or the end of the octets. Both exits answer j, so that it stays in one register.
fn next_lf(xs: &[u8], i: usize) -> usize
    requires { i ≤ length xs.now }
    ensures { result ≡ line_end xs.now i }
{
    let mut j = i;
    while j < xs.len() {
        if xs[j] == b'\n' {
            return j;
        }
        j += 1;
    }
    j
}

// The end of the line that i is in: the place of its LF, or the end of the octets. An empty line is seen at once.
pub fn line_end(xs: &[u8], i: usize) -> usize
    requires { i ≤ length xs.now }
    ensures { result ≡ line_end xs.now i }
{
    if i < xs.len() && xs[i] == b'\n' {
        return i;
    }
    let mut j = i;
    while goes_on(xs, j, Class::NotNewline) {
        j += 16;
    }
    next_lf(xs, eight_on(xs, j))
}

// Whether the octets, at least 16, are all free text. The last 16 are tested at once, though some may have been tested before.
fn long_free(xs: &[u8]) -> bool
    requires { 16 ≤ length xs.now }
    ensures { result ≡ all_of (in_class FreeText) xs.now }
{
    let mut j = 0;
    while goes_on(xs, j, Class::FreeText) {
        j += 16;
    }
    xs.len() - j < 16 && all_in(&xs[xs.len() - 16..], Class::FreeText)
}

// Whether the octets are all free text.
pub fn all_free(xs: &[u8]) -> bool
    ensures { result ≡ all_of (in_class FreeText) xs.now }
{
    let n = xs.len();
    if 16 <= n {
        return long_free(xs);
    }
    if 8 <= n {
        return all_in(&xs[..8], Class::FreeText) && all_in(&xs[n - 8..], Class::FreeText);
    }
    skip(xs, Class::FreeText) == n
}

// The decimal number of 1 to 10 digits, or none.
pub fn decimal(xs: &[u8]) -> Option<u64>
    ensures { result ≡ decimal_of xs.now }
{
    if xs.is_empty() || 10 < xs.len() {
        return None;
    }
    let mut v: u64 = 0;
    for b in xs {
        if !b.is_ascii_digit() {
            return None;
        }
        v = v * 10 + u64::from(*b - b'0');
    }
    Some(v)
}
