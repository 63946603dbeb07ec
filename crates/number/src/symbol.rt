// The first symbol of a field line that passes a test. The symbols are the qualifiers of the line that have numbers.
ghost use Rattle.std.specs.Prelude.{ℕ, Bool, ◌≤◌, ◌≡◌, List, length, IfSome, MatchOption};
ghost use Rattle.std.specs.Prelude.{Some, None};
ghost use Rattle.format.specs.Grammar.{qualifier};
ghost use Rattle.octets.specs.Octets.{part_in};
ghost use Rattle.number.specs.Symbols.{first_in, if_symbol, passing};

use octets::Class;
use stanza_words::Qualifier;

// The qualifier from i to z, if it is a symbol that passes the test, as its name and its number.
fn one<'a, F: Fn(&[u8], u64) -> bool>(
    s: &'a [u8],
    i: usize,
    z: usize,
    test: &F,
) -> Option<(&'a [u8], u64)>
    requires from { i ≤ z }
    requires to { z ≤ length s.now }
    requires callable { F.IsAlwaysCallable test.now }
    ensures passes { (g : List ℕ → ℕ → Bool) → ((t : _) (v : ℕ) (r : Bool) → F.post test.now t v r → r ≡ g t.now v)
        → MatchOption result (if_symbol (passing g) (qualifier (part_in s.now i z)) ≡ None) (λ y. if_symbol (passing g) (qualifier (part_in s.now i z)) ≡ Some (y.0.now, y.1)) }
    ensures short { IfSome result (λ y. length y.0.now ≤ length s.now) }
{
    let Qualifier::Numbered(e, v) = stanza_words::find(s, i, z)? else {
        return None;
    };
    let name = &s[i..e];
    if test(name, v) { Some((name, v)) } else { None }
}

// The first symbol between a and b that passes the test, as its name and its number.
#[tactic(auto, using(stanza_words::proofs::Laws::run_within))]
pub fn first<'a, F: Fn(&[u8], u64) -> bool>(
    s: &'a [u8],
    a: usize,
    b: usize,
    test: F,
) -> Option<(&'a [u8], u64)>
    requires from { a ≤ b }
    requires to { b ≤ length s.now }
    requires callable { F.IsAlwaysCallable test }
    ensures passes { (g : List ℕ → ℕ → Bool) → ((t : _) (v : ℕ) (r : Bool) → F.post test t v r → r ≡ g t.now v)
        → MatchOption result (first_in (passing g) s.now a b ≡ None) (λ y. first_in (passing g) s.now a b ≡ Some (y.0.now, y.1)) }
    ensures short { IfSome result (λ y. length y.0.now ≤ length s.now) }
{
    let mut i = a;
    loop {
        let z = i + octets::skip(&s[i..b], Class::NotComma);
        if let Some((name, v)) = one(s, i, z, &test) {
            return Some((name, v));
        }
        if z == b {
            return None;
        }
        i = z + 1;
    }
}
