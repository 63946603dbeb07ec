// The public entries for C.
#![tactic(auto)]

ghost use Rattle.entry.specs.Entries.{JudgePromise, JudgeStoredPromise, PrintPromise, PrintWithPromise, PrintStoredPromise, ReadPromise, ReadWithPromise, ReadStoredPromise, unpacked};
ghost use Rattle.catalogue_pack.specs.Packed.{entries_of};

use catalogue_pack::Entry;

// Judges a description: `entry::judge`, its answer in 64 bits.
#[unsafe(no_mangle)]
pub extern "C" fn extlang_judge(stanza: &[u8]) -> u64
    ensures { JudgePromise stanza.now (unpacked result) }
{
    let r = entry::judge(stanza);
    entry::packed(r)
}

// Prints RDATA: `entry_print::print`, its answer in 64 bits.
#[unsafe(no_mangle)]
pub extern "C" fn extlang_print(
    stanza: &[u8],
    first: u64,
    length: u64,
    rdata: &[u8],
    out: &mut [u8],
    at: u64,
) -> u64
    ensures { PrintPromise stanza.now first length rdata.now out.old at (unpacked result) out.new }
{
    let from = first as usize;
    let many = length as usize;
    let place = at as usize;
    let r = entry_print::print(stanza, from, many, rdata, out, place);
    entry::packed(r)
}

// Reads a text: `entry_read::read`, its answer in 64 bits.
#[unsafe(no_mangle)]
pub extern "C" fn extlang_read(
    stanza: &[u8],
    first: u64,
    length: u64,
    origin: &[u8],
    text: &[u8],
    out: &mut [u8],
    at: u64,
) -> u64
    ensures { ReadPromise stanza.now first length origin.now text.now out.old at (unpacked result) out.new }
{
    let from = first as usize;
    let many = length as usize;
    let place = at as usize;
    let r = entry_read::read(stanza, from, many, origin, text, out, place);
    entry::packed(r)
}

// Prints RDATA with the names of types in a catalogue, a slice of structs and the text that they point into: `extlang_print`
// where there is no entry.
#[unsafe(no_mangle)]
pub extern "C" fn extlang_print_named(
    stanza: &[u8],
    first: u64,
    length: u64,
    entries: &[Entry],
    names: &[u8],
    rdata: &[u8],
    out: &mut [u8],
    at: u64,
) -> u64
    ensures { PrintWithPromise stanza.now first length (entries_of entries.now) names.now rdata.now out.old at (unpacked result) out.new }
{
    let mut raw = [0; 513];
    let n = catalogue_pack::packed(entries, &mut raw);
    let from = first as usize;
    let many = length as usize;
    let place = at as usize;
    let r = entry_print::print_with(stanza, from, many, &raw[..n], names, rdata, out, place);
    entry::packed(r)
}

// Reads a text with the names of types in a catalogue: `extlang_read` where there is no entry.
#[unsafe(no_mangle)]
pub extern "C" fn extlang_read_named(
    stanza: &[u8],
    first: u64,
    length: u64,
    entries: &[Entry],
    names: &[u8],
    origin: &[u8],
    text: &[u8],
    out: &mut [u8],
    at: u64,
) -> u64
    ensures { ReadWithPromise stanza.now first length (entries_of entries.now) names.now origin.now text.now out.old at (unpacked result) out.new }
{
    let mut raw = [0; 513];
    let n = catalogue_pack::packed(entries, &mut raw);
    let from = first as usize;
    let many = length as usize;
    let place = at as usize;
    let r = entry_read::read_with(
        stanza,
        from,
        many,
        &raw[..n],
        names,
        origin,
        text,
        out,
        place,
    );
    entry::packed(r)
}

// Judges a stored description: `entry::judge_stored`, its answer in 64 bits.
#[unsafe(no_mangle)]
pub extern "C" fn extlang_judge_stored(txt: &[u8], edition: u64) -> u64
    ensures { JudgeStoredPromise txt.now edition (unpacked result) }
{
    let r = entry::judge_stored(txt, edition as usize);
    entry::packed(r)
}

// Prints RDATA under a stored description: `entry_print::print_stored`, its answer in 64 bits.
#[unsafe(no_mangle)]
pub extern "C" fn extlang_print_stored(
    txt: &[u8],
    first: u64,
    length: u64,
    edition: u64,
    rdata: &[u8],
    out: &mut [u8],
    at: u64,
) -> u64
    ensures { PrintStoredPromise txt.now first length edition rdata.now out.old at (unpacked result) out.new }
{
    let from = first as usize;
    let many = length as usize;
    let draft = edition as usize;
    let place = at as usize;
    let r = entry_print::print_stored(txt, from, many, draft, rdata, out, place);
    entry::packed(r)
}

// Reads a text under a stored description: `entry_read::read_stored`, its answer in 64 bits.
#[unsafe(no_mangle)]
pub extern "C" fn extlang_read_stored(
    txt: &[u8],
    first: u64,
    length: u64,
    edition: u64,
    origin: &[u8],
    text: &[u8],
    out: &mut [u8],
    at: u64,
) -> u64
    ensures { ReadStoredPromise txt.now first length edition origin.now text.now out.old at (unpacked result) out.new }
{
    let from = first as usize;
    let many = length as usize;
    let draft = edition as usize;
    let place = at as usize;
    let r = entry_read::read_stored(txt, from, many, draft, origin, text, out, place);
    entry::packed(r)
}
