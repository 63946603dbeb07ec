// The entries of a catalogue as numbers, from the octets of a line's word.
ghost use Rattle.std.specs.Prelude.{◌≡◌, length, take};
ghost use Rattle.catalogue.specs.Entries.{entry_at, entries_at};
ghost use Rattle.probe_reply.specs.Entries.{entry_of, entries_in};

// The most entries that are looked at.
const MOST: usize = 513;

// The number of the entry in 8 octets.
fn number(entry: &[u8]) -> u64
    requires { length entry.now ≡ 8 }
    ensures { entry_at result ≡ entry_of entry.now }
{
    let mut octets = [0u8; 8];
    octets.copy_from_slice(entry);
    u64::from_be_bytes(octets)
}

// Stores the numbers of the whole entries in xs, 513 at most, and returns those.
pub fn numbers<'a>(xs: &[u8], raw: &'a mut [u64; MOST]) -> &'a [u64]
    ensures { entries_at result.now ≡ take 513 (entries_in xs.now) }
{
    let count = (xs.len() / 8).min(MOST);
    for i in 0..count {
        raw[i] = number(&xs[i * 8..i * 8 + 8]);
    }
    &raw[..count]
}
