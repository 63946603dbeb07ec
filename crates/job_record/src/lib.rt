// Writes the line that answers a record of a job, whose stanza is judged once for all records.
#![tactic(auto)]

ghost use Rattle.std.specs.Prelude.{◌^◌, ◌≤◌, ◌<◌, length};
ghost use Rattle.format.specs.Stored.{as_file};
ghost use Rattle.stanza_judge.specs.Stanza.{Outlined};
ghost use Rattle.buffer.specs.Writing.{Wrote};
ghost use Rattle.job_record.specs.Answer.{line_under};

use job_line::{put_no, put_ok};
use stanza_judge::Outline;

// Writes the line that answers a record under a judged stanza. RDATA is read into `rdata`, which has room for any.
pub fn put_record(
    out: &mut [u8],
    at: usize,
    s: &[u8],
    outline: Outline,
    codes: &[u64; 64],
    origin: &[u8],
    t: &[u8],
    rdata: &mut [u8],
) -> usize
    requires place { at < 2 ^ 31 }
    requires judged { Outlined (as_file s.now) s.now codes.now outline }
    requires text { length t.now ≤ 1048576 }
    requires room { 65535 ≤ length rdata.old }
    ensures { Wrote out.old out.new at result (line_under s.now origin.now t.now) }
{
    let r = entry_read::read_judged(s, outline, codes, 1, outline.count, origin, t, rdata, 0);
    if r.number == 0 {
        return put_ok(out, at, &rdata[..r.place as usize]);
    }
    put_no(out, at, r.number, r.place)
}
