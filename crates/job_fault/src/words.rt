// Writes the line that tells a job's fault.
ghost use Rattle.std.specs.Prelude.{◌^◌, ◌<◌, ◌≡◌};
ghost use Rattle.buffer.specs.Writing.{Wrote};
ghost use Rattle.job_fault.specs.Words.{line_words, reason_words, fault_words};

use crate::fault::Fault;
use crate::reason::Reason;
use buffer::{put_all, put_octet};
use digits::put_decimal;

// Why a line breaks the form, in words.
fn words(reason: Reason) -> &'static [u8]
    ensures { result.now ≡ reason_words reason }
{
    match reason {
        Reason::TooLong => b"it has more than 65,535 octets",
        Reason::NoCount => b"the job ends where a line count should stand",
        Reason::ByteOrderMark => {
            b"a byte order mark stands before the line count; save the job without it"
        }
        Reason::CarriageReturn => b"the line ends in CR; save the job with LF line ends",
        Reason::NotCount => b"a line count should stand here, 1 to 10 digits alone",
        Reason::TooFew => b"the line count is larger than the number of lines that follow",
        Reason::NotOneLine => b"the line count of the origin is not 1",
        Reason::NoLastDot => b"the origin lacks its last dot",
        Reason::NotName => b"the origin is not one absolute name",
        Reason::LineAfter => b"nothing may follow the last section",
    }
}

// Writes `line` and its number, or nothing for no line.
#[tactic(auto, using(format::proofs::Number::decimal_10))]
fn put_line(out: &mut [u8], at: usize, line: Option<u32>) -> usize
    requires { at < 2 ^ 31 }
    ensures { Wrote out.old out.new at result (line_words line) }
{
    let Some(k) = line else {
        return at;
    };
    let number = put_all(out, at, b"line ");
    let end = put_decimal(out, number, u64::from(k));
    put_all(out, end, b": ")
}

// Writes one line that tells a fault, or nothing if there is none.
#[tactic(auto, using(crate::proofs::Lengths::line_short, crate::proofs::Lengths::reason_short))]
pub fn put_words(out: &mut [u8], at: usize, fault: Option<Fault>) -> usize
    requires { at < 2 ^ 30 }
    ensures { Wrote out.old out.new at result (fault_words fault) }
{
    let Some(f) = fault else {
        return at;
    };
    let line = put_all(out, at, b"job: ");
    let reason = put_line(out, line, f.line);
    let end = put_all(out, reason, words(f.reason));
    put_octet(out, end, b'\n')
}
