// Lent entries of a catalogue as the numbers that the catalogue's rooms take: from parallel slices, and from a slice of structs.
#![tactic(auto)]

ghost use Rattle.std.specs.Prelude.{◌≡◌};
ghost use Rattle.catalogue_pack.specs.Place.{Rising, PlaceOf};
ghost use Rattle.catalogue_pack.specs.Packed.{lent_of, entries_of, parallel, pack_of, Fitting, Packed};

// A type number, and where its name lies in a lent text. 8 octets; C's struct extlang_entry.
#[repr(C)]
#[derive(Clone, Copy)]
pub struct Entry {
    pub number: u32,
    pub start: u16,
    pub length: u16,
}

impl Entry {
    // The entry as one number.
    pub fn to_word(self) -> u64
        ensures value { result ≡ pack_of (lent_of self) }
        ensures fits { Fitting (lent_of self) }
    {
        u64::from(self.number) * 4294967296 + u64::from(self.start) * 65536 + u64::from(self.length)
    }
}

// Stores the entries of parallel slices, as many as the shortest has, 513 at most; the answer is how many.
pub fn pack(numbers: &[u32], starts: &[u16], lengths: &[u16], raw: &mut [u64; 513]) -> usize
    ensures { Packed (parallel numbers.now starts.now lengths.now) raw.old raw.new result }
{
    let n = numbers.len().min(starts.len()).min(lengths.len()).min(513);
    for i in 0..n {
        let e = Entry {
            number: numbers[i],
            start: starts[i],
            length: lengths[i],
        };
        raw[i] = e.to_word();
    }
    n
}

// The same from structs.
pub fn packed(es: &[Entry], raw: &mut [u64; 513]) -> usize
    ensures { Packed (entries_of es.now) raw.old raw.new result }
{
    let n = es.len().min(513);
    for i in 0..n {
        raw[i] = es[i].to_word();
    }
    n
}

// Where entries rise by number: the place of the entry with a type number, found by halves.
pub fn place_of(es: &[Entry], number: u32) -> Option<usize>
    requires { Rising es.now }
    ensures { PlaceOf es.now number result }
{
    es.binary_search_by_key(&number, |e| e.number).ok()
}
