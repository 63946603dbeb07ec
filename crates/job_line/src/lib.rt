// Writes the lines that answer a job.
#![tactic(auto)]

ghost use Rattle.std.specs.Prelude.{◌^◌, ◌<◌, ◌≤◌, length, None};
ghost use Rattle.format.specs.Entries.{done, refusal};
ghost use Rattle.format.specs.Job.{answer_line, written};
ghost use Rattle.buffer.specs.Writing.{Wrote};

use base::print::put_hex_upper;
use buffer::{put_all, put_octet};
use digits::put_decimal;

// Writes `ok`, then the octets in hex if there are any.
#[tactic(auto, using(format::proofs::Hex::hex_length))]
pub fn put_ok(out: &mut [u8], at: usize, rdata: &[u8]) -> usize
    requires room { at < 2 ^ 31 }
    requires short { length rdata.now ≤ 65535 }
    ensures { Wrote out.old out.new at result (answer_line (done rdata.now)) }
{
    if rdata.is_empty() {
        return put_all(out, at, b"ok\n");
    }
    let hex = put_all(out, at, b"ok ");
    let end = put_hex_upper(out, hex, rdata);
    put_octet(out, end, b'\n')
}

// Writes `no`, then a refusal's number and place.
#[tactic(auto, using(format::proofs::Number::decimal_10))]
pub fn put_no(out: &mut [u8], at: usize, number: u32, place: u32) -> usize
    requires { at < 2 ^ 31 }
    ensures { Wrote out.old out.new at result (answer_line (refusal number place)) }
{
    let first = put_all(out, at, b"no ");
    let blank = put_decimal(out, first, u64::from(number));
    let second = put_octet(out, blank, b' ');
    let end = put_decimal(out, second, u64::from(place));
    put_octet(out, end, b'\n')
}

// Writes the line that answers a job that breaks the form.
pub fn put_bad_job(out: &mut [u8], at: usize) -> usize
    requires { at < 2 ^ 31 }
    ensures { Wrote out.old out.new at result (written None) }
{
    put_all(out, at, b"bad job\n")
}
