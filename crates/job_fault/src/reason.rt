// Why a line of a job breaks the form.
ghost use Rattle.std.specs.Prelude.{◌≤◌, ◌≡◌, length};
ghost use Rattle.job_form.specs.Lines.{lines_at};
ghost use Rattle.job_fault.specs.Fault.{marked, returned, count_reason, section_reason, name_reason};

use job_form::lines::next_line;
use job_form::origin::name_line;

// The most octets of a line with a dot after it.
const DOTTED: usize = 65536;

// See specs/Fault.antt.
#[derive(Clone, Copy)]
pub enum Reason {
    TooLong,
    NoCount,
    ByteOrderMark,
    CarriageReturn,
    NotCount,
    TooFew,
    NotOneLine,
    NoLastDot,
    NotName,
    LineAfter,
}

// Whether t is line 1 and begins with the byte order mark.
fn is_marked(t: &[u8], k: u32) -> bool
    ensures { result ≡ marked k t.now }
{
    k == 1 && t.starts_with(b"\xEF\xBB\xBF")
}

// Whether t ends in CR.
fn is_returned(t: &[u8]) -> bool
    ensures { result ≡ returned t.now }
{
    t.ends_with(b"\r")
}

// Why line k, whose text is t, is no line count.
fn count_reason(t: &[u8], k: u32) -> Reason
    ensures { result ≡ count_reason k t.now }
{
    if is_marked(t, k) {
        return Reason::ByteOrderMark;
    }
    if is_returned(t) {
        return Reason::CarriageReturn;
    }
    Reason::NotCount
}

// Why no section begins at `at`, which is line k.
#[tactic(auto, using(octets::proofs::Slices::lent))]
pub fn section_reason(j: &[u8], at: usize, k: u32) -> Reason
    ensures { result ≡ section_reason k (lines_at j.now at) }
{
    let Some(e) = next_line(j, at) else {
        return Reason::NoCount;
    };
    let t = &j[at..e];
    match octets::decimal(t) {
        None => count_reason(t, k),
        Some(_) => Reason::TooFew,
    }
}

// Why the line t is no origin: it is read once more, with a dot after it.
fn dotted_reason(t: &[u8], dotted: &mut [u8]) -> Reason
    requires short { length t.now ≤ 65535 }
    requires room { 65536 ≤ length dotted.old }
    ensures { result ≡ name_reason t.now }
{
    if t == b"@".as_slice() {
        return Reason::NotName;
    }
    let n = t.len();
    dotted[..n].copy_from_slice(t);
    dotted[n] = b'.';
    match name_line(&mut [], &dotted[..n + 1]) {
        None => Reason::NotName,
        Some(_) => Reason::NoLastDot,
    }
}

// Lends a buffer to `dotted_reason`.
pub fn name_reason(t: &[u8]) -> Reason
    requires { length t.now ≤ 65535 }
    ensures { result ≡ name_reason t.now }
{
    let mut dotted = [0u8; DOTTED];
    dotted_reason(t, &mut dotted)
}
