// Reads the form of a job.
ghost use Rattle.std.specs.Prelude.{◌≤◌, length};
ghost use Rattle.job_form.specs.Form.{Lasts, Rests, Forms};

use crate::lines::read_section;
use crate::origin::read_origin;

// Where a job's stanza stands, how many octets of the lent buffer its origin takes, and where its records begin.
#[derive(Clone, Copy)]
pub struct Places {
    pub from: usize,
    pub to: usize,
    pub origin: usize,
    pub records: usize,
}

// What follows the stanza: the number of the origin's octets, and where the records begin.
#[derive(Clone, Copy)]
struct Rest {
    origin: usize,
    records: usize,
}

// Where the lines of the section begin whose line count stands at `at`, if nothing follows them.
fn last_section(j: &[u8], at: usize) -> Option<usize>
    ensures { Lasts j.now at result }
{
    let s = read_section(j, at)?;
    if s.to < j.len() { None } else { Some(s.from) }
}

// Reads the origin and the records, from the line at `at` on.
fn after_stanza(j: &[u8], at: usize, origin: &mut [u8]) -> Option<Rest>
    requires { length j.now ≤ 65535 }
    ensures { Rests j.now at origin.old origin.new result }
{
    let s = read_section(j, at)?;
    let records = last_section(j, s.to)?;
    let n = read_origin(origin, j, s.from, s.lines)?;
    Some(Rest { origin: n, records })
}

// Reads a job's places, if it keeps the form; its origin is stored at the start of the lent buffer.
pub fn read_form(j: &[u8], origin: &mut [u8]) -> Option<Places>
    requires { 255 ≤ length origin.old }
    ensures { Forms j.now origin.new result }
{
    if 65535 < j.len() {
        return None;
    }
    let s = read_section(j, 0)?;
    let r = after_stanza(j, s.to, origin)?;
    Some(Places {
        from: s.from,
        to: s.to,
        origin: r.origin,
        records: r.records,
    })
}
