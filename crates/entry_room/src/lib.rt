// Reads a text under a run of fields into a lent buffer, if there is room.
#![tactic(auto)]

ghost use Rattle.std.specs.Prelude.{◌-◌, ◌≤◌, length};
ghost use Rattle.stanza_form.specs.Code.{fields_of};
ghost use Rattle.run_wire.specs.Run.{kinds_of, UsableRun};
ghost use Rattle.catalogue.specs.Known.{names_in};
ghost use Rattle.entry.specs.Entries.{Leaves, with_room, run_octets, ReadsIn};

use entry::{Reply, accepted, refused, refused_run};
use field_read::Under;

// Reads a second time, now into the lent buffer, a text that the run reads and for which there is room.
fn read_again(codes: &[u64], u: &Under<'_>, t: &[u8], out: &mut [u8], at: usize) -> Reply
    requires run { UsableRun u.now.s.now (fields_of codes.now) }
    requires text { length t.now ≤ 1048576 }
    requires reads { ReadsIn (names_in u.now.c) (kinds_of u.now.s.now (fields_of codes.now)) u.now.origin.now t.now (length out.old - at) }
    ensures { Leaves result out.new (with_room out.old at (run_octets (names_in u.now.c) (kinds_of u.now.s.now (fields_of codes.now)) u.now.origin.now t.now)) }
{
    let a = at.min(out.len());
    match run_read::read_run(&mut out[a..], codes, u, t) {
        Err(r) => refused_run(r),
        Ok(m) => accepted(m as u32),
    }
}

// Reads a text under a run of a judged stanza, through a short buffer: nothing lent changes before the whole result is known.
// Of a longer result only the count is kept, and it is read again.
fn read_through(
    short: &mut [u8],
    codes: &[u64],
    u: &Under<'_>,
    t: &[u8],
    out: &mut [u8],
    at: usize,
) -> Reply
    requires run { UsableRun u.now.s.now (fields_of codes.now) }
    requires text { length t.now ≤ 1048576 }
    ensures { Leaves result out.new (with_room out.old at (run_octets (names_in u.now.c) (kinds_of u.now.s.now (fields_of codes.now)) u.now.origin.now t.now)) }
{
    match run_read::read_run(short, codes, u, t) {
        Err(r) => refused_run(r),
        Ok(m) => {
            if 65535 < m {
                return refused(11, 0);
            }
            let n = out.len();
            let from = at.min(n);
            if n - from < m {
                return refused(12, m as u32);
            }
            if short.len() < m {
                return read_again(codes, u, t, out, at);
            }
            let w = buffer::put_all(&mut out[from..], 0, &short[..m]);
            accepted(w as u32)
        }
    }
}

// The same through an array of its own: one of 256 octets, which is cleared at once, if the text is short; one of 1,024 if it is
// longer; else one of 12,288, which every bitmap (8,704) fits into.
pub fn read_run(codes: &[u64], u: &Under<'_>, t: &[u8], out: &mut [u8], at: usize) -> Reply
    requires run { UsableRun u.now.s.now (fields_of codes.now) }
    requires text { length t.now ≤ 1048576 }
    ensures { Leaves result out.new (with_room out.old at (run_octets (names_in u.now.c) (kinds_of u.now.s.now (fields_of codes.now)) u.now.origin.now t.now)) }
{
    if t.len() <= 128 {
        return read_through(&mut [0; 256], codes, u, t, out, at);
    }
    if t.len() <= 1024 {
        return read_through(&mut [0; 1024], codes, u, t, out, at);
    }
    read_through(&mut [0; 12288], codes, u, t, out, at)
}
