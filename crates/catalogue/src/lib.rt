// A catalogue of type names that is not refused: the type with a number, and the type with a name.
#![tactic(auto)]

ghost use Rattle.std.specs.Prelude.{◌+◌, ◌≤◌, ◌≡◌, length, IfSome, IfNone};
ghost use Rattle.format.specs.Octets.{same_word};
ghost use Rattle.format.specs.Rrtype.{type_text};
ghost use Rattle.format.specs.Catalogue.{type_text_in};
ghost use Rattle.catalogue.specs.Entries.{entry_at, spelled_at, names_of, Listed, Rising, place_of, name_number};

// The type number of an entry.
pub fn type_number(w: u64) -> u64
    ensures { result ≡ (entry_at w).type_no }
{
    w / 4294967296
}

// Where the name of an entry starts.
pub fn start(w: u64) -> usize
    ensures { result ≡ (entry_at w).start }
{
    (w / 65536 % 65536) as usize
}

// How long the name of an entry is.
pub fn size(w: u64) -> usize
    ensures { result ≡ (entry_at w).size }
{
    (w % 65536) as usize
}

// The name of an entry, which lies in the text.
pub fn spelled(names: &[u8], w: u64) -> &[u8]
    requires { (entry_at w).start + (entry_at w).size ≤ length names.now }
    ensures { result.now ≡ spelled_at names.now w }
{
    let a = start(w);
    &names[a..a + size(w)]
}

// The place of the entry with the type number v, of entries that rise: found by halves.
pub fn place_of(types: &[u64], v: u64) -> Option<usize>
    requires { Rising types.now }
    ensures { result ≡ place_of types.now v }
{
    types.binary_search_by_key(&v, |&w| type_number(w)).ok()
}

// Whether a name is the token, the case of letters ignored. Most names have another size.
fn is_named(name: &[u8], t: &[u8]) -> bool
    ensures { result ≡ same_word name.now t.now }
{
    if t.len() < 16 {
        return stanza_words::same(true, name, t);
    }
    stanza_words::same_long(true, name, t)
}

// A catalogue that is not refused: the entries, each a number that holds the type's number and where its name lies, and the
// text in which the names lie.
#[derive(Clone, Copy)]
pub struct Catalogue<'a> {
    pub types: &'a [u64],
    pub names: &'a [u8],
    pub ghost listed: { Listed names.now types.now },
}

impl<'a> Catalogue<'a> {
    ghost use Rattle.catalogue.specs.Known.{names_in};

    // The name of the type with the number v.
    pub fn name_of(&self, v: u64) -> Option<&'a [u8]>
        ensures named { IfSome result (λ t. type_text_in (names_in self.now) v ≡ t.now) }
        ensures short { IfSome result (λ t. length t.now ≤ 63) }
        ensures unnamed { IfNone result (type_text_in (names_in self.now) v ≡ type_text v) }
    {
        let k = place_of(self.types, v)?;
        Some(spelled(self.names, self.types[k]))
    }

    // The number of the type whose name is the token, the case of letters ignored.
    pub fn named(&self, t: &[u8]) -> Option<u64>
        ensures { result ≡ name_number (names_in self.now) t.now }
    {
        for &w in self.types {
            if is_named(spelled(self.names, w), t) {
                return Some(type_number(w));
            }
        }
        None
    }
}
