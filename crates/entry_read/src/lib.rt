// Reading: the refusals in their order, and the octets if there is room for them.
#![tactic(auto)]

ghost use Rattle.std.specs.Prelude.{◌≤◌, ◌≡◌, true, length};
ghost use Rattle.format.specs.Name.{is_wire_name};
ghost use Rattle.format.specs.Catalogue.{catalogued};
ghost use Rattle.format.specs.Stored.{Lent, as_file};
ghost use Rattle.format.specs.Entries.{of_catalogue};
ghost use Rattle.stanza_form.specs.Code.{fields_of};
ghost use Rattle.stanza_judge.specs.Stanza.{Outlined};
ghost use Rattle.stanza_stored.specs.Stored.{lent_as};
ghost use Rattle.catalogue.specs.Entries.{entries_at};
ghost use Rattle.run_wire.specs.Run.{kinds_of, UsableRun};
ghost use Rattle.entry.specs.Entries.{Leaves, ReadPromise, ReadWithPromise, ReadStoredPromise, ReadOfPromise, with_room, run_octets};

use entry::{Reply, refused, rejected};
use field_read::Under;
use stanza_judge::Outline;

// Whether the octets are one whole wire name.
fn is_name(p: &[u8]) -> bool
    ensures { result ≡ is_wire_name p.now }
{
    match field_wire::name(p, false) {
        Ok(w) => w == p.len(),
        Err(_) => false,
    }
}

// Reads a text under a run of a judged stanza, given by the codes of its fields, with the names of a catalogue; 13 if it is bad.
fn read_listed(
    s: &[u8],
    codes: &[u64],
    entries: &[u64],
    names: &[u8],
    origin: &[u8],
    t: &[u8],
    out: &mut [u8],
    at: usize,
) -> Reply
    requires run { UsableRun s.now (fields_of codes.now) }
    requires origin { is_wire_name origin.now ≡ true }
    requires text { length t.now ≤ 1048576 }
    ensures { Leaves result out.new (with_room out.old at (of_catalogue (catalogued names.now (entries_at entries.now)) (λ c. run_octets c (kinds_of s.now (fields_of codes.now)) origin.now t.now))) }
{
    match catalogue_judge::judged(entries, names) {
        Err(k) => refused(13, k as u32),
        Ok(c) => {
            let u = Under { s, c, origin };
            entry_room::read_run(codes, &u, t, out, at)
        }
    }
}

// Reads a text under a description that is already judged, however it was lent, with a catalogue.
fn read_under(
    s: &[u8],
    outline: Outline,
    codes: &[u64; 64],
    first: usize,
    many: usize,
    entries: &[u64],
    names: &[u8],
    origin: &[u8],
    t: &[u8],
    out: &mut [u8],
    at: usize,
) -> Reply
    requires judged { (l : Lent) × Outlined l s.now codes.now outline }
    requires short { outline.number ≡ 0 → length s.now ≤ 8192 }
    requires text { length t.now ≤ 1048576 }
    ensures { (l : Lent) → Outlined l s.now codes.now outline → ReadOfPromise l first many (entries_at entries.now) names.now origin.now t.now out.old at result out.new }
{
    if outline.number != 0 {
        return rejected(outline);
    }
    if !entry::is_run(first, many, outline.count) {
        return refused(6, 0);
    }
    if !is_name(origin) {
        return refused(7, 0);
    }
    let run = &codes[first - 1..first - 1 + many];
    read_listed(s, run, entries, names, origin, t, out, at)
}

// The same of a stanza, with no catalogue.
pub fn read_judged(
    s: &[u8],
    outline: Outline,
    codes: &[u64; 64],
    first: usize,
    many: usize,
    origin: &[u8],
    t: &[u8],
    out: &mut [u8],
    at: usize,
) -> Reply
    requires judged { Outlined (as_file s.now) s.now codes.now outline }
    requires text { length t.now ≤ 1048576 }
    ensures { ReadPromise s.now first many origin.now t.now out.old at result out.new }
{
    read_under(s, outline, codes, first, many, &[], b"", origin, t, out, at)
}

// Reads a text under `length` fields of a description, starting at `first`; names without a final dot are under the origin, and
// types may have the names in a catalogue: its entries as numbers, and the text that they point into. The description is lent as a
// file, which has no edition, or as stored strings of an edition. The answer is 0 and the number of octets of the RDATA, which stand
// in `out` from `at` on; or a refusal's number and place, with `out` as it was.
pub fn read_lent(
    s: &[u8],
    first: usize,
    length: usize,
    entries: &[u64],
    names: &[u8],
    origin: &[u8],
    text: &[u8],
    out: &mut [u8],
    at: usize,
    in_file: bool,
    edition: usize,
) -> Reply
    ensures { ReadOfPromise (lent_as in_file edition s.now) first length (entries_at entries.now) names.now origin.now text.now out.old at result out.new }
{
    if 1048576 < text.len() {
        return refused(1, 0);
    }
    let mut codes = [0u64; 64];
    let outline = stanza_stored::judged(s, in_file, edition, &mut codes);
    read_under(
        s, outline, &codes, first, length, entries, names, origin, text, out, at,
    )
}

// The same of a description in a file.
pub fn read_with(
    stanza: &[u8],
    first: usize,
    length: usize,
    entries: &[u64],
    names: &[u8],
    origin: &[u8],
    text: &[u8],
    out: &mut [u8],
    at: usize,
) -> Reply
    ensures { ReadWithPromise stanza.now first length (entries_at entries.now) names.now origin.now text.now out.old at result out.new }
{
    read_lent(
        stanza, first, length, entries, names, origin, text, out, at, true, 13,
    )
}

// The same with no catalogue: a type is read as `TYPE` and its number alone.
pub fn read(
    stanza: &[u8],
    first: usize,
    length: usize,
    origin: &[u8],
    text: &[u8],
    out: &mut [u8],
    at: usize,
) -> Reply
    ensures { ReadPromise stanza.now first length origin.now text.now out.old at result out.new }
{
    read_lent(
        stanza,
        first,
        length,
        &[],
        b"",
        origin,
        text,
        out,
        at,
        true,
        13,
    )
}

// The same of a stored description: counted strings, of the edition that the caller names.
pub fn read_stored(
    txt: &[u8],
    first: usize,
    length: usize,
    edition: usize,
    origin: &[u8],
    text: &[u8],
    out: &mut [u8],
    at: usize,
) -> Reply
    ensures { ReadStoredPromise txt.now first length edition origin.now text.now out.old at result out.new }
{
    read_lent(
        txt,
        first,
        length,
        &[],
        b"",
        origin,
        text,
        out,
        at,
        false,
        edition,
    )
}
