// Writes the lines that answer requests, each at the start of a buffer.
ghost use Rattle.std.specs.Prelude.{◌^◌, ◌<◌, ◌≤◌, length};
ghost use Rattle.buffer.specs.Writing.{Wrote};
ghost use Rattle.probe_reply.specs.Replies.{octets_text, numbers_text, judged_line, result_line, unknown_line};

use base::print::put_hex_upper;
use buffer::{put_all, put_octet};
use digits::put_decimal;
use entry::Reply;

// Writes octets in hex, '-' for none.
pub fn put_octets(out: &mut [u8], at: usize, octets: &[u8]) -> usize
    requires place { at < 2 ^ 31 }
    requires short { length octets.now < 2 ^ 31 }
    ensures { Wrote out.old out.new at result (octets_text octets.now) }
{
    if octets.is_empty() {
        return put_octet(out, at, b'-');
    }
    put_hex_upper(out, at, octets)
}

// Writes an answer's number and its place.
fn put_numbers(out: &mut [u8], reply: Reply) -> usize
    ensures { Wrote out.old out.new 0 result (numbers_text reply.number reply.place) }
{
    let end = put_decimal(out, 0, u64::from(reply.number));
    let blank = put_octet(out, end, b' ');
    put_decimal(out, blank, u64::from(reply.place))
}

// Writes the answer to a request to judge.
pub fn put_judged(out: &mut [u8], reply: Reply) -> usize
    ensures { Wrote out.old out.new 0 result (judged_line reply.number reply.place) }
{
    let end = put_numbers(out, reply);
    put_octet(out, end, b'\n')
}

// Writes the answer to a request to print or to read, with the octets of the result.
pub fn put_result(out: &mut [u8], reply: Reply, octets: &[u8]) -> usize
    requires { length octets.now ≤ 2 ^ 30 }
    ensures { Wrote out.old out.new 0 result (result_line reply.number reply.place octets.now) }
{
    let end = put_numbers(out, reply);
    let blank = put_octet(out, end, b' ');
    let last = put_octets(out, blank, octets);
    put_octet(out, last, b'\n')
}

// Writes the answer to a line that is no request.
pub fn put_unknown(out: &mut [u8]) -> usize
    ensures { Wrote out.old out.new 0 result unknown_line }
{
    put_all(out, 0, b"?\n")
}
