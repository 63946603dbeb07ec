// Printing and reading with a lent catalogue whose entries are parallel slices: type numbers, and where each name starts in the
// lent text and how long it is. There are as many entries as the shortest slice has.
#![tactic(auto)]

ghost use Rattle.entry.specs.Entries.{PrintWithPromise, ReadWithPromise};
ghost use Rattle.catalogue_pack.specs.Packed.{parallel};

use entry::Reply;

// Prints RDATA under `length` fields of a description, starting at `first`, with the names of types in the catalogue: see
// `entry_print::print_with`.
pub fn print_named(
    stanza: &[u8],
    first: usize,
    length: usize,
    numbers: &[u32],
    starts: &[u16],
    lengths: &[u16],
    names: &[u8],
    rdata: &[u8],
    out: &mut [u8],
    at: usize,
) -> Reply
    ensures { PrintWithPromise stanza.now first length (parallel numbers.now starts.now lengths.now) names.now rdata.now out.old at result out.new }
{
    let mut raw = [0; 513];
    let n = catalogue_pack::pack(numbers, starts, lengths, &mut raw);
    entry_print::print_with(stanza, first, length, &raw[..n], names, rdata, out, at)
}

// Reads a text under `length` fields of a description, starting at `first`, with the names of types in the catalogue: see
// `entry_read::read_with`.
pub fn read_named(
    stanza: &[u8],
    first: usize,
    length: usize,
    numbers: &[u32],
    starts: &[u16],
    lengths: &[u16],
    names: &[u8],
    origin: &[u8],
    text: &[u8],
    out: &mut [u8],
    at: usize,
) -> Reply
    ensures { ReadWithPromise stanza.now first length (parallel numbers.now starts.now lengths.now) names.now origin.now text.now out.old at result out.new }
{
    let mut raw = [0; 513];
    let n = catalogue_pack::pack(numbers, starts, lengths, &mut raw);
    entry_read::read_with(
        stanza,
        first,
        length,
        &raw[..n],
        names,
        origin,
        text,
        out,
        at,
    )
}
