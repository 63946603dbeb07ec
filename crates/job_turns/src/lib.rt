// Answers a job in turns: the stanza is judged once, and each turn writes the lines of as many records as there is room for.
#![tactic(auto)]

ghost use Rattle.std.specs.Prelude.{◌≤◌, ◌≡◌, length, Some};
ghost use Rattle.job_turns.specs.Job.{Begun, Begins, first_at, Turns};

use job_form::form::{Places, read_form};
use job_form::lines::line_end;
use job_line::put_bad_job;
use job_record::put_record;
use stanza_judge::Outline;

// The most octets that RDATA may have.
const RDATA: usize = 65535;

// The longest line: `ok `, two digits for each of 65,535 octets, and the LF.
const LONGEST_LINE: usize = 131074;

// A job that keeps the form: its places, its origin, its judged stanza, and the codes of its fields.
#[derive(Clone, Copy)]
pub struct Job {
    pub places: Places,
    pub origin: [u8; 255],
    pub outline: Outline,
    pub codes: [u64; 64],
}

// A turn: how many octets it wrote, and where the records begin that are left, if there are any.
#[derive(Clone, Copy)]
pub struct Turn {
    pub taken: usize,
    pub rest: Option<usize>,
}

// Reads the form of a job, and judges its stanza; none if the form is broken.
pub fn begin(j: &[u8]) -> Option<Job>
    ensures { Begins j.now result }
{
    let mut origin = [0u8; 255];
    let mut codes = [0u64; 64];
    let places = read_form(j, &mut origin)?;
    let outline = stanza_judge::judged_outline(&j[places.from..places.to], &mut codes);
    Some(Job {
        places,
        origin,
        outline,
        codes,
    })
}

// Where the first turn begins.
pub fn first(job: &Option<Job>) -> usize
    ensures { result ≡ first_at job.now }
{
    match job {
        None => 0,
        Some(job) => job.places.records,
    }
}

// Writes the lines of the records from `at` on, while there is room for the longest line.
fn put_lines(out: &mut [u8], j: &[u8], job: &Job, at: usize, rdata: &mut [u8; RDATA]) -> Turn
    requires begun { Begun j.now job.now }
    requires room { 131074 ≤ length out.old }
    requires small { length out.old ≤ 1048576 }
    ensures { Turns j.now (Some job.now) at out.old out.new result }
{
    let p = job.places;
    let mut m = at;
    let mut n = 0;
    while m < j.len() {
        if out.len() - n < LONGEST_LINE {
            return Turn {
                taken: n,
                rest: Some(m),
            };
        }
        let e = line_end(j, m);
        n = put_record(
            out,
            n,
            &j[p.from..p.to],
            job.outline,
            &job.codes,
            &job.origin[..p.origin],
            &j[m..e],
            rdata,
        );
        m = e + 1;
    }
    Turn {
        taken: n,
        rest: None,
    }
}

// Takes the next turn, from `at` on: writes the lines of records, or `bad job`.
pub fn next(out: &mut [u8], j: &[u8], job: &Option<Job>, at: usize) -> Turn
    requires begins { Begins j.now job.now }
    requires room { 131074 ≤ length out.old }
    requires small { length out.old ≤ 1048576 }
    ensures { Turns j.now job.now at out.old out.new result }
{
    match job {
        None => Turn {
            taken: put_bad_job(out, 0),
            rest: None,
        },
        Some(job) => {
            let mut rdata = [0u8; RDATA];
            put_lines(out, j, job, at, &mut rdata)
        }
    }
}
