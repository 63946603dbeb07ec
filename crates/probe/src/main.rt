// Answers request lines, one line each:
//
//     J STANZA                                                -> NUMBER PLACE
//     JC STANZA                                               -> NUMBER PLACE
//     JS TXT EDITION                                          -> NUMBER PLACE
//     P STANZA FIRST LENGTH RDATA ROOM                        -> NUMBER PLACE TEXT
//     PC STANZA FIRST LENGTH CATALOGUE NAMES RDATA ROOM       -> NUMBER PLACE TEXT
//     PS TXT EDITION FIRST LENGTH RDATA ROOM                  -> NUMBER PLACE TEXT
//     R STANZA FIRST LENGTH ORIGIN TEXT ROOM                  -> NUMBER PLACE RDATA
//     RC STANZA FIRST LENGTH CATALOGUE NAMES ORIGIN TEXT ROOM -> NUMBER PLACE RDATA
//     RS TXT EDITION FIRST LENGTH ORIGIN TEXT ROOM            -> NUMBER PLACE RDATA
//     W JOB                                                   -> LINES
//
// PLACE is the count where NUMBER is 0, and the last word is '-' on a refusal. CATALOGUE has 8 octets for each entry, big-endian:
// 4 for the type number, 2 for where its name starts in NAMES, 2 for how long it is; with a tail of fewer than 8 the line is no
// request. All lines but PC and RC have an empty one. TXT is a description as the DNS stores it. LINES are those that the program
// job writes for a JOB on its standard input. Octets are in hex of either case, '-' for none, and numbers decimal, of at most 64
// bits; one space parts two words. A line that is no request, or has more than 2,200,000 octets, answers '?'. The last line may
// lack its LF. If a read fails, the line that is not whole has no answer.
#![tactic(auto)]

ghost use Rattle.std.specs.Prelude.{◌≤◌, IfOk, IfSome, length};

use probe_request::Request;
use std::io;
use streams::Standard;

// The most octets that one read takes.
const PIECE: usize = 65536;

// One octet more than the longest request, so that a longer one is noticed, and a piece.
const SPACE: usize = 2265537;

// Half of the longest request: the octets that its words spell.
const OCTETS: usize = 1100000;

// The longest result.
const TEXT: usize = 1048576;

// The room for one answer: a result in hex, with its number and place.
const ROOM: usize = 2097176;

// The room for a turn of a job.
const LINES: usize = 262148;

// Writes octets to standard output, or tells that answers are lost.
fn write(to: &mut Standard, out: &[u8]) -> io::Result<()> {
    streams::write_all(&mut to.output, &mut to.error, b"probe", out)
}

// Writes the lines of a turn in hex, '-' for none.
fn write_octets(to: &mut Standard, lines: &[u8], out: &mut [u8; ROOM]) -> io::Result<()>
    requires { length lines.now ≤ 1048576 }
{
    let end = probe_reply::line::put_octets(out, 0, lines);
    write(to, &out[..end])
}

// Writes the turns of a job and an LF, unless a write fails.
fn write_job(
    to: &mut Standard,
    j: &[u8],
    text: &mut [u8; TEXT],
    out: &mut [u8; ROOM],
) -> io::Result<()> {
    let job = job_turns::begin(j);
    let mut rest = Some(job_turns::first(&job));
    while let Some(at) = rest {
        let turn = job_turns::next(&mut text[..LINES], j, &job, at);
        write_octets(to, &text[..turn.taken], out)?;
        rest = turn.rest;
    }
    write(to, b"\n")
}

// Writes the answer to a line without its LF.
fn answer(
    to: &mut Standard,
    line: &[u8],
    octets: &mut [u8; OCTETS],
    text: &mut [u8; TEXT],
    out: &mut [u8; ROOM],
) -> io::Result<()> {
    let request = probe_request::read(line, octets);
    if let Some(Request::Job(job)) = request {
        return write_job(to, job.of(octets), text, out);
    }
    let n = probe_reply::put_answer(octets, request, text, out);
    write(to, &out[..n])
}

// Answers the whole lines in buf, whose first `kept` octets have no LF, and returns how many octets it keeps of the next line.
fn answer_lines(
    to: &mut Standard,
    buf: &mut [u8],
    kept: usize,
    octets: &mut [u8; OCTETS],
    text: &mut [u8; TEXT],
    out: &mut [u8; ROOM],
) -> io::Result<usize>
    requires { kept ≤ length buf.old }
    ensures { IfOk result (λ n. n ≤ 2200001) }
{
    let mut start = 0;
    let mut end = probe_request::line_end(buf, kept);
    while end < buf.len() {
        answer(to, &buf[start..end], octets, text, out)?;
        start = end + 1;
        end = probe_request::line_end(buf, start);
    }
    Ok(probe_request::keep(buf, start))
}

// Reads once, after the octets that are kept, and answers the lines that are whole by then, or at the end of the input the last
// line, which may have no LF. Returns how many octets are kept after that, or none where answering is over.
fn turn(
    to: &mut Standard,
    buf: &mut [u8; SPACE],
    kept: usize,
    octets: &mut [u8; OCTETS],
    text: &mut [u8; TEXT],
    out: &mut [u8; ROOM],
) -> Option<usize>
    requires { kept ≤ 2200001 }
    ensures { IfSome result (λ n. n ≤ 2200001) }
{
    match streams::read_once(&mut to.input, &mut buf[kept..kept + PIECE]) {
        Ok(Some(n)) => answer_lines(to, &mut buf[..kept + n], kept, octets, text, out).ok(),
        Ok(None) => {
            if kept > 0 {
                let _ = answer(to, &buf[..kept], octets, text, out);
            }
            None
        }
        Err(_) => {
            streams::unread(&mut to.error, b"probe");
            None
        }
    }
}

// Answers all lines. A proved loop must end, and nothing says that the input does: so the turns are counted, up to a number that
// no run reaches.
fn run(
    to: &mut Standard,
    buf: &mut [u8; SPACE],
    octets: &mut [u8; OCTETS],
    text: &mut [u8; TEXT],
    out: &mut [u8; ROOM],
) {
    let mut kept = 0;
    for _ in 0..u64::MAX {
        match turn(to, buf, kept, octets, text, out) {
            Some(n) => kept = n,
            None => return,
        }
    }
}

// Lends the streams and the buffers to `run`.
fn main(rt: HostRuntime) {
    let mut to = Standard {
        input: rt.stdin(),
        output: rt.stdout(),
        error: rt.stderr(),
    };
    let mut buf = [0u8; SPACE];
    let mut octets = [0u8; OCTETS];
    let mut text = [0u8; TEXT];
    let mut out = [0u8; ROOM];
    run(&mut to, &mut buf, &mut octets, &mut text, &mut out);
}
