// The answers of the public entries, judging, and what printing and reading share.
#![tactic(auto)]

ghost use Rattle.std.specs.Prelude.{ℕ, ◌+◌, ◌-◌, ◌≤◌, ◌≡◌, ◌&&◌, List, leb};
ghost use Rattle.format.specs.Stored.{Lent};
ghost use Rattle.format.specs.Entries.{judge_of};
ghost use Rattle.stanza_judge.specs.Stanza.{Outlined};
ghost use Rattle.entry.specs.Entries.{Replies, JudgePromise, JudgeStoredPromise, unpacked};

use run_wire::Refusal;
use stanza_judge::Outline;

// An answer: 0 and a count, or a refusal's number and place.
#[derive(Clone, Copy)]
pub struct Reply {
    pub number: u32,
    pub place: u32,
}

// A refusal.
pub fn refused(number: u32, place: u32) -> Reply
    ensures number { result.number ≡ number }
    ensures place { result.place ≡ place }
{
    Reply { number, place }
}

// The refusal of a run's octets or text.
pub fn refused_run(r: Refusal) -> Reply
    ensures number { result.number ≡ r.number }
    ensures place { result.place ≡ r.place }
{
    refused(r.number, r.place)
}

// The refusal of a description.
pub fn rejected(outline: Outline) -> Reply
    ensures number { result.number ≡ outline.number }
    ensures place { result.place ≡ outline.line }
{
    refused(u32::from(outline.number), u32::from(outline.line))
}

// Success, with the count of fields or octets.
pub fn accepted(count: u32) -> Reply
    ensures number { result.number ≡ 0 }
    ensures place { result.place ≡ count }
{
    Reply {
        number: 0,
        place: count,
    }
}

// The answer of a judged description: 0 and the number of its fields, or a refusal's number and line.
fn replied(outline: Outline) -> Reply
    requires { outline.number ≡ 0 → outline.count ≤ 64 }
    ensures { (l : Lent) (s codes : List ℕ) → Outlined l s codes outline → Replies result (judge_of l) }
{
    if outline.number == 0 {
        return accepted(outline.count as u32);
    }
    rejected(outline)
}

// Judges a description in a file.
pub fn judge(stanza: &[u8]) -> Reply
    ensures { JudgePromise stanza.now result }
{
    let mut codes = [0u64; 64];
    let outline = stanza_judge::judged_outline(stanza, &mut codes);
    replied(outline)
}

// Judges a stored description: counted strings, of the edition that the caller names. Line numbers are string numbers.
pub fn judge_stored(txt: &[u8], edition: usize) -> Reply
    ensures { JudgeStoredPromise txt.now edition result }
{
    let mut codes = [0u64; 64];
    let outline = stanza_stored::judged_stored(txt, edition, &mut codes);
    replied(outline)
}

// Whether `many` fields, starting at `first`, are among `count`; the first field is number 1.
pub fn is_run(first: usize, many: usize, count: usize) -> bool
    ensures { result ≡ leb 1 first && leb (first - 1 + many) count }
{
    1 <= first && many <= count && first - 1 <= count - many
}

// An answer in 64 bits: the number in the upper 32, the place or the count in the lower.
pub fn packed(r: Reply) -> u64
    ensures number { (unpacked result).number ≡ r.number }
    ensures place { (unpacked result).place ≡ r.place }
{
    u64::from(r.number) * 4294967296 + u64::from(r.place)
}
