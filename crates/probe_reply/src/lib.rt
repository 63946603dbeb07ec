// Answers requests.
#![tactic(auto)]

pub mod entries;
pub mod line;

ghost use Rattle.std.specs.Prelude.{◌^◌, ◌≤◌, ◌≡◌, IfSome, length};
ghost use Rattle.format.specs.Entries.{if_room, judge_of};
ghost use Rattle.entry.specs.Entries.{Leaves, with_room};
ghost use Rattle.buffer.specs.Writing.{Wrote};
ghost use Rattle.probe_request.specs.Words.{Inside, RunWithin, Within, whole_named, run_named, asked};
ghost use Rattle.probe_reply.specs.Replies.{result_line};
ghost use Rattle.probe_reply.specs.Reply.{answer_line, outcome_line, asked_printing, asked_reading, lent_in, NoJob, reply_to, result_of};

use crate::entries::numbers;
use crate::line::{put_judged, put_result, put_unknown};
use entry::Reply;
use probe_request::{Description, Request, Run};

// Answers a request to judge.
fn judge(octets: &[u8], description: Description, out: &mut [u8]) -> usize
    requires { Inside (length octets.now) description.text }
    ensures line { Wrote out.old out.new 0 result (outcome_line (judge_of (lent_in (whole_named 74 description octets.now)))) }
    ensures fits { result ≤ 2097176 }
{
    let text = description.text.of(octets);
    match description.edition {
        None => put_judged(out, entry::judge(text)),
        Some(edition) => put_judged(out, entry::judge_stored(text, edition)),
    }
}

// Writes an answer whose octets, if it has any, stand at the start of a buffer.
fn put_reply(out: &mut [u8], reply: Reply, text: &[u8]) -> usize
    requires within { reply.number ≡ 0 → reply.place ≤ length text.now }
    requires short { length text.now ≤ 2 ^ 30 }
    ensures { Wrote out.old out.new 0 result (result_line reply.number reply.place (result_of reply.number reply.place text.now)) }
{
    if reply.number == 0 {
        return put_result(out, reply, &text[..reply.place as usize]);
    }
    put_result(out, reply, &[])
}

// Prints octets, with the octets of a catalogue's entries; `text` is as long as the room.
fn printed(octets: &[u8], run: Run, text: &mut [u8]) -> Reply
    requires { RunWithin (length octets.now) run }
    ensures { Leaves result text.new (with_room text.old 0 (asked_printing (run_named 80 run octets.now))) }
{
    let lent = run.lent.text.of(octets);
    let rdata = run.octets.of(octets);
    match run.lent.edition {
        None => {
            let mut raw = [0u64; 513];
            let types = numbers(run.catalogue.entries.of(octets), &mut raw);
            let names = run.catalogue.names.of(octets);
            entry_print::print_with(lent, run.first, run.many, types, names, rdata, text, 0)
        }
        Some(edition) => {
            entry_print::print_stored(lent, run.first, run.many, edition, rdata, text, 0)
        }
    }
}

// Answers a request to print; `text` is as long as the room.
fn print(octets: &[u8], run: Run, text: &mut [u8], out: &mut [u8]) -> usize
    requires within { RunWithin (length octets.now) run }
    requires room { length text.old ≤ 1048576 }
    ensures line { Wrote out.old out.new 0 result (answer_line (if_room (length text.old) (asked_printing (run_named 80 run octets.now)))) }
    ensures fits { result ≤ 2097176 }
{
    let reply = printed(octets, run, text);
    put_reply(out, reply, text)
}

// Reads a text, with the octets of a catalogue's entries; `rdata` is as long as the room.
fn taken(octets: &[u8], run: Run, rdata: &mut [u8]) -> Reply
    requires { RunWithin (length octets.now) run }
    ensures { Leaves result rdata.new (with_room rdata.old 0 (asked_reading (run_named 82 run octets.now))) }
{
    let lent = run.lent.text.of(octets);
    let origin = run.origin.of(octets);
    let text = run.octets.of(octets);
    match run.lent.edition {
        None => {
            let mut raw = [0u64; 513];
            let types = numbers(run.catalogue.entries.of(octets), &mut raw);
            let names = run.catalogue.names.of(octets);
            entry_read::read_with(
                lent, run.first, run.many, types, names, origin, text, rdata, 0,
            )
        }
        Some(edition) => entry_read::read_stored(
            lent, run.first, run.many, edition, origin, text, rdata, 0,
        ),
    }
}

// Answers a request to read; `rdata` is as long as the room.
fn read(octets: &[u8], run: Run, rdata: &mut [u8], out: &mut [u8]) -> usize
    requires within { RunWithin (length octets.now) run }
    requires room { length rdata.old ≤ 1048576 }
    ensures line { Wrote out.old out.new 0 result (answer_line (if_room (length rdata.old) (asked_reading (run_named 82 run octets.now)))) }
    ensures fits { result ≤ 2097176 }
{
    let reply = taken(octets, run, rdata);
    put_reply(out, reply, rdata)
}

// Answers any request except a job, and a line that is none.
pub fn put_answer(octets: &[u8], request: Option<Request>, text: &mut [u8], out: &mut [u8]) -> usize
    requires within { IfSome request (λ q. Within (length octets.now) q) }
    requires no_job { NoJob request }
    requires room { length text.old ≡ 1048576 }
    ensures line { Wrote out.old out.new 0 result (reply_to (asked request octets.now)) }
    ensures fits { result ≤ 2097176 }
{
    match request {
        None => put_unknown(out),
        Some(Request::Judge(description)) => judge(octets, description, out),
        Some(Request::Print(run)) => {
            let room = run.room.min(text.len());
            print(octets, run, &mut text[..room], out)
        }
        Some(Request::Read(run)) => {
            let room = run.room.min(text.len());
            read(octets, run, &mut text[..room], out)
        }
        Some(Request::Job(_)) => unreachable!(),
    }
}
