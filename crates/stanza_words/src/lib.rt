// The qualifiers of a field line: their grammar, and the tests made of them.
#![tactic(auto)]

ghost use Rattle.std.specs.Prelude.{◌≤◌, length, leb, eqb, ◌≡◌, ◌&&◌, cond, [], ◌∷◌, None, Some};
ghost use Rattle.format.specs.Octets.{lowered};
ghost use Rattle.format.specs.Grammar.{word, symbol, starts_with_letter, qualifier};
ghost use Rattle.format.specs.Types.{known_word, has_word};
ghost use Rattle.octets.specs.Octets.{part_in};
ghost use Rattle.stanza_words.specs.Qualifiers.{found_in, words_for, holds_of, any_in, same_by};

use octets::Class;

// What a qualifier is by the grammar: a word; or a symbol, with the end of its name and its number.
#[derive(Clone, Copy)]
pub enum Qualifier {
    Word,
    Numbered(usize, u64),
}

// The words that a type takes; see specs/Qualifiers.antt.
#[derive(Clone, Copy)]
pub enum Words {
    OnR,
    OnN,
    OnS,
    OnX,
}

// A test of a qualifier; see specs/Qualifiers.antt.
#[derive(Clone, Copy)]
pub enum Test {
    Malformed,
    Unknown,
    NotSymbol(u64),
    NotWord(Words),
    IsWord(u8),
}

// The octet, in lower case if `ignoring`.
pub fn fold(ignoring: bool, b: u8) -> u8
    ensures { result ≡ cond ignoring (lowered b) b }
{
    if ignoring { octets::lower(b) } else { b }
}

// Whether two octets are the same, in lower case if `ignoring`.
fn same_octet(ignoring: bool, x: u8, y: u8) -> bool
    ensures { result ≡ eqb (cond ignoring (lowered x) x) (cond ignoring (lowered y) y) }
{
    fold(ignoring, x) == fold(ignoring, y)
}

// Whether two texts are the same; if `ignoring`, the case of letters does not count.
pub fn same(ignoring: bool, s: &[u8], t: &[u8]) -> bool
    ensures { result ≡ same_by ignoring s.now t.now }
{
    if s.len() != t.len() {
        return false;
    }
    for i in 0..s.len() {
        if !same_octet(ignoring, s[i], t[i]) {
            return false;
        }
    }
    true
}

// The same for texts of one length. The loop never stops early, so that it takes many octets at once.
fn same_all(ignoring: bool, s: &[u8], t: &[u8]) -> bool
    requires { length s.now ≡ length t.now }
    ensures { result ≡ same_by ignoring s.now t.now }
{
    let mut ok = true;
    for (x, y) in s.iter().zip(t) {
        ok &= same_octet(ignoring, *x, *y);
    }
    ok
}

// The same as `same`, quicker for long texts that begin with the same octets.
pub fn same_long(ignoring: bool, s: &[u8], t: &[u8]) -> bool
    ensures { result ≡ same_by ignoring s.now t.now }
{
    s.len() == t.len() && same_all(ignoring, s, t)
}

// Whether a text starts with a letter.
pub fn starts_with_letter(t: &[u8]) -> bool
    ensures { result ≡ starts_with_letter t.now }
{
    t.first().is_some_and(|x| Class::Letter.has(*x))
}

// Whether a text starts with a letter and has at most 63 octets.
pub fn begins_name(t: &[u8]) -> bool
    ensures { result ≡ starts_with_letter t.now && leb (length t.now) 63 }
{
    starts_with_letter(t) && t.len() <= 63
}

// The qualifier from a to z, if it is one.
#[tactic(auto, using(crate::proofs::Laws::run_within))]
pub fn find(s: &[u8], a: usize, z: usize) -> Option<Qualifier>
    requires from { a ≤ z }
    requires to { z ≤ length s.now }
    ensures { found_in s.now a z result ≡ qualifier (part_in s.now a z) }
{
    let n = a + octets::skip(&s[a..z], Class::NameOctet);
    if !begins_name(&s[a..n]) {
        return None;
    }
    if n == z {
        return Some(Qualifier::Word);
    }
    if s[n] != b'=' {
        return None;
    }
    let number = octets::decimal(&s[n + 1..z])?;
    Some(Qualifier::Numbered(n, number))
}

// Whether a letter is a word that some type takes.
fn known_letter(x: u8) -> bool
    ensures { result ≡ known_word (x ∷ []) }
{
    matches!(x, b'L' | b'C' | b'A' | b'O' | b'M' | b'X')
}

impl Words {
    // Whether a letter is a word that the type takes.
    fn takes(self, x: u8) -> bool
        ensures { result ≡ has_word (words_for self) (x ∷ []) }
    {
        match self {
            Words::OnR => x == b'L',
            Words::OnN => matches!(x, b'C' | b'A' | b'L' | b'O'),
            Words::OnS => matches!(x, b'M' | b'X'),
            Words::OnX => x == b'C',
        }
    }
}

impl Test {
    // Whether the test holds of a text that is no qualifier.
    fn holds_bad(self) -> bool
        ensures { result ≡ holds_of self None }
    {
        matches!(
            self,
            Test::Malformed | Test::NotSymbol(_) | Test::NotWord(_)
        )
    }

    // Whether the test holds of a symbol with the number v.
    fn holds_symbol(self, v: u64) -> bool
        ensures { result ≡ holds_of self (Some (symbol (record { spelling = part_in [] 0 0; value = v }))) }
    {
        match self {
            Test::NotSymbol(limit) => limit <= v,
            Test::NotWord(_) => true,
            Test::Malformed | Test::Unknown | Test::IsWord(_) => false,
        }
    }

    // Whether the test holds of a word of one letter.
    fn holds_letter(self, x: u8) -> bool
        ensures { result ≡ holds_of self (Some (word (x ∷ []))) }
    {
        match self {
            Test::Malformed => false,
            Test::Unknown => !known_letter(x),
            Test::NotSymbol(_) => true,
            Test::NotWord(w) => !w.takes(x),
            Test::IsWord(y) => y == x,
        }
    }

    // Whether the test holds of a word that is not one letter, which no type takes.
    fn holds_long(self) -> bool
        ensures { result ≡ holds_of self (Some (word [])) }
    {
        matches!(self, Test::Unknown | Test::NotSymbol(_) | Test::NotWord(_))
    }

    // Whether the test holds of the qualifier from a to z.
    fn holds(self, s: &[u8], a: usize, z: usize) -> bool
        requires from { a ≤ z }
        requires to { z ≤ length s.now }
        ensures { result ≡ holds_of self (qualifier (part_in s.now a z)) }
    {
        match find(s, a, z) {
            None => self.holds_bad(),
            Some(Qualifier::Word) => {
                if z - a == 1 {
                    return self.holds_letter(s[a]);
                }
                self.holds_long()
            }
            Some(Qualifier::Numbered(_, v)) => self.holds_symbol(v),
        }
    }
}

// Whether a test holds of some qualifier between a and b. Most often there is one, of one letter, which is tested directly.
pub fn any(test: Test, s: &[u8], a: usize, b: usize) -> bool
    requires from { a ≤ b }
    requires to { b ≤ length s.now }
    ensures { result ≡ any_in test s.now a b }
{
    if b - a == 1 && Class::Letter.has(s[a]) {
        return test.holds_letter(s[a]);
    }
    any_of(test, s, a, b)
}

// The same, one qualifier after another.
#[tactic(auto, using(crate::proofs::Laws::run_within))]
fn any_of(test: Test, s: &[u8], a: usize, b: usize) -> bool
    requires from { a ≤ b }
    requires to { b ≤ length s.now }
    ensures { result ≡ any_in test s.now a b }
{
    let mut i = a;
    loop {
        let end = i + octets::skip(&s[i..b], Class::NotComma);
        if test.holds(s, i, end) {
            return true;
        }
        if end == b {
            return false;
        }
        i = end + 1;
    }
}
