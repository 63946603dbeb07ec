// Printing: the refusals in their order, and the text if there is room for it.
#![tactic(auto)]

ghost use Rattle.std.specs.Prelude.{ℕ, ◌+◌, ◌≤◌, ◌≡◌, true, List, length};
ghost use Rattle.format.specs.Octets.{Octets};
ghost use Rattle.format.specs.Entries.{done, of_catalogue};
ghost use Rattle.format.specs.Run.{text_of};
ghost use Rattle.format.specs.Catalogue.{TypeName, catalogued};
ghost use Rattle.format.specs.Demands.{sound_names};
ghost use Rattle.stanza_form.specs.Code.{fields_of};
ghost use Rattle.run_wire.specs.Run.{kinds_of, UsableRun};
ghost use Rattle.run_print.specs.Printing.{Accepted};
ghost use Rattle.stanza_stored.specs.Stored.{lent_as};
ghost use Rattle.entry.specs.Entries.{Leaves, PrintPromise, PrintWithPromise, PrintStoredPromise, PrintOfPromise, with_room, run_text};
ghost use Rattle.catalogue.specs.Entries.{entries_at};
ghost use Rattle.catalogue.specs.Known.{names_in};
ghost use Rattle.entry_print.specs.Needs.{Needs};

use catalogue::Catalogue;
use entry::{Reply, accepted, refused, refused_run, rejected};
use stanza_form::Shape;

// Whether the text of `octets` octets surely fits the room: except for R[L], an octet prints as at most 4, and a field adds at
// most 64. If this denies it, the text is measured.
fn surely_fits(codes: &[u64], octets: usize, room: usize) -> bool
    requires fields { length codes.now ≤ 64 }
    requires octets { octets ≤ 65535 }
    ensures { result ≡ true → (c : List TypeName) → sound_names c ≡ true → (s xs : List ℕ) → Octets xs → length xs ≡ octets → Accepted s (fields_of codes.now) xs → length (text_of c (kinds_of s (fields_of codes.now)) xs) ≤ room }
{
    let Some(code) = codes.last() else {
        return false;
    };
    if room < 4 * octets + 64 * codes.len() {
        return false;
    }
    let d = stanza_form::field(*code);
    let y = stanza_form::layout_of(d.form);
    !matches!(y.shape, Shape::Windows)
}

// The room that the text needs: 0 if it surely fits, else its length, measured on the empty part at the buffer's end.
fn needed(
    s: &[u8],
    codes: &[u64],
    c: &Catalogue<'_>,
    p: &[u8],
    out: &mut [u8],
    room: usize,
) -> usize
    requires { Accepted s.now (fields_of codes.now) p.now }
    ensures same { out.new ≡ out.old }
    ensures needs { Needs room result (text_of (names_in c.now) (kinds_of s.now (fields_of codes.now)) p.now) }
{
    if surely_fits(codes, p.len(), room) {
        return 0;
    }
    let end = out.len();
    run_print::put_run(&mut out[end..], s, codes, c, p)
}

// Writes the text of RDATA that the run takes, at a place in the buffer, if there is room.
fn put_text(
    s: &[u8],
    codes: &[u64],
    c: &Catalogue<'_>,
    p: &[u8],
    out: &mut [u8],
    at: usize,
) -> Reply
    requires { Accepted s.now (fields_of codes.now) p.now }
    ensures { Leaves result out.new (with_room out.old at (done (text_of (names_in c.now) (kinds_of s.now (fields_of codes.now)) p.now))) }
{
    let n = out.len();
    let a = at.min(n);
    let need = needed(s, codes, c, p, out, n - a);
    if n - a < need {
        return refused(12, need as u32);
    }
    let w = run_print::put_run(&mut out[a..], s, codes, c, p);
    accepted(w as u32)
}

// Prints RDATA under a run of a judged stanza, given by the codes of its fields.
fn print_run(
    s: &[u8],
    codes: &[u64],
    c: &Catalogue<'_>,
    p: &[u8],
    out: &mut [u8],
    at: usize,
) -> Reply
    requires usable { UsableRun s.now (fields_of codes.now) }
    requires octets { length p.now ≤ 65535 }
    ensures { Leaves result out.new (with_room out.old at (run_text (names_in c.now) (kinds_of s.now (fields_of codes.now)) p.now)) }
{
    match run_wire::check(codes, p) {
        Err(r) => refused_run(r),
        Ok(()) => put_text(s, codes, c, p, out, at),
    }
}

// Prints RDATA under a run of a judged stanza, with the names of a catalogue; 13 if it is bad.
fn print_listed(
    s: &[u8],
    codes: &[u64],
    entries: &[u64],
    names: &[u8],
    p: &[u8],
    out: &mut [u8],
    at: usize,
) -> Reply
    requires usable { UsableRun s.now (fields_of codes.now) }
    requires octets { length p.now ≤ 65535 }
    ensures { Leaves result out.new (with_room out.old at (of_catalogue (catalogued names.now (entries_at entries.now)) (λ c. run_text c (kinds_of s.now (fields_of codes.now)) p.now))) }
{
    match catalogue_judge::judged(entries, names) {
        Err(k) => refused(13, k as u32),
        Ok(c) => print_run(s, codes, &c, p, out, at),
    }
}

// Prints RDATA under `length` fields of a description, starting at `first`, with the names of types in a catalogue: its entries
// as numbers, and the text that they point into. The description is lent as a file, which has no edition, or as stored strings of
// an edition. The answer is 0 and the number of octets of the text, which stands in `out` from `at` on; or a refusal's number and
// place, with `out` as it was.
pub fn print_lent(
    s: &[u8],
    first: usize,
    length: usize,
    entries: &[u64],
    names: &[u8],
    rdata: &[u8],
    out: &mut [u8],
    at: usize,
    in_file: bool,
    edition: usize,
) -> Reply
    ensures { PrintOfPromise (lent_as in_file edition s.now) first length (entries_at entries.now) names.now rdata.now out.old at result out.new }
{
    if 65535 < rdata.len() {
        return refused(1, 0);
    }
    let mut codes = [0u64; 64];
    let outline = stanza_stored::judged(s, in_file, edition, &mut codes);
    if outline.number != 0 {
        return rejected(outline);
    }
    if !entry::is_run(first, length, outline.count) {
        return refused(6, 0);
    }
    let run = &codes[first - 1..first - 1 + length];
    print_listed(s, run, entries, names, rdata, out, at)
}

// The same of a description in a file.
pub fn print_with(
    stanza: &[u8],
    first: usize,
    length: usize,
    entries: &[u64],
    names: &[u8],
    rdata: &[u8],
    out: &mut [u8],
    at: usize,
) -> Reply
    ensures { PrintWithPromise stanza.now first length (entries_at entries.now) names.now rdata.now out.old at result out.new }
{
    print_lent(
        stanza, first, length, entries, names, rdata, out, at, true, 13,
    )
}

// The same with no catalogue: every type prints as `TYPE` and its number.
pub fn print(
    stanza: &[u8],
    first: usize,
    length: usize,
    rdata: &[u8],
    out: &mut [u8],
    at: usize,
) -> Reply
    ensures { PrintPromise stanza.now first length rdata.now out.old at result out.new }
{
    print_lent(stanza, first, length, &[], b"", rdata, out, at, true, 13)
}

// The same of a stored description: counted strings, of the edition that the caller names.
pub fn print_stored(
    txt: &[u8],
    first: usize,
    length: usize,
    edition: usize,
    rdata: &[u8],
    out: &mut [u8],
    at: usize,
) -> Reply
    ensures { PrintStoredPromise txt.now first length edition rdata.now out.old at result out.new }
{
    print_lent(txt, first, length, &[], b"", rdata, out, at, false, edition)
}
