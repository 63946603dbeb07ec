// Reads the origin of a job.
ghost use Rattle.std.specs.Prelude.{◌≤◌, ◌≡◌, length, take, None};
ghost use Rattle.format.specs.Token.{tokens};
ghost use Rattle.format.specs.Name.{name_of};
ghost use Rattle.format.specs.Job.{origin_token, origin_of};
ghost use Rattle.buffer.specs.Writing.{Values};
ghost use Rattle.job_form.specs.Lines.{lines_at};

use crate::lines::line_end;
use tokens::Next;

// Reads the absolute name that a text spells: a name is absolute if it is as long under a longer origin.
#[tactic(auto, using(crate::proofs::Origins::root_wire, crate::proofs::Origins::other_wire, crate::proofs::Origins::none_under_a, crate::proofs::Origins::none_under_root))]
fn absolute_name(out: &mut [u8], t: &[u8]) -> Option<usize>
    requires { length t.now ≤ 1048576 }
    ensures { Values out.old out.new 0 result (name_of None t.now) }
{
    let x = name::read::name(&mut [], 0, t, b"\x01a\x00")?;
    let y = name::read::name(out, 0, t, b"\x00")?;
    if x == y { Some(y) } else { None }
}

// Reads a line that is one bare token, an absolute name.
#[tactic(auto, using(crate::proofs::Origins::part_token, crate::proofs::Origins::whole_token))]
pub fn name_line(out: &mut [u8], t: &[u8]) -> Option<usize>
    requires { length t.now ≤ 1048576 }
    ensures { Values out.old out.new 0 result (origin_token t.now (tokens t.now)) }
{
    let Next::Bare(a, e) = tokens::next_token(t, 0)? else {
        return None;
    };
    if e - a < t.len() {
        return None;
    }
    absolute_name(out, t)
}

// Reads the origin from its section, of n lines from `at` on.
pub fn read_origin(out: &mut [u8], j: &[u8], at: usize, n: u64) -> Option<usize>
    requires short { length j.now ≤ 65535 }
    requires lines { n ≤ length (lines_at j.now at) }
    ensures { Values out.old out.new 0 result (origin_of (take n (lines_at j.now at))) }
{
    if n != 1 {
        return None;
    }
    let e = line_end(j, at);
    name_line(out, &j[at..e])
}
