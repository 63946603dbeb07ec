// Finds the first line of a job that breaks the form.
ghost use Rattle.std.specs.Prelude.{◌^◌, ◌<◌, ◌≤◌, ◌≡◌, length};
ghost use Rattle.job_form.specs.Lines.{lines_at};
ghost use Rattle.job_fault.specs.Fault.{at_line, records_fault, origin_fault, fault_of};

use crate::reason::{Reason, name_reason, section_reason};
use job_form::lines::{line_end, read_section};
use job_form::origin::read_origin;

// A fault of a job: the number of its line, from 1, or none if no line is at fault; and why.
#[derive(Clone, Copy)]
pub struct Fault {
    pub line: Option<u32>,
    pub reason: Reason,
}

// The fault of line k.
fn at_line(k: u32, reason: Reason) -> Option<Fault>
    ensures { result ≡ at_line k reason }
{
    Some(Fault {
        line: Some(k),
        reason,
    })
}

// The first fault from the records' line count on, which stands at `at` and is line k.
fn records_fault(j: &[u8], at: usize, k: u32) -> Option<Fault>
    requires short { length j.now ≤ 65535 }
    requires line { k < 2 ^ 31 }
    ensures { result ≡ records_fault k (lines_at j.now at) }
{
    let Some(s) = read_section(j, at) else {
        return at_line(k, section_reason(j, at, k));
    };
    if s.to < j.len() {
        return at_line(k + s.lines as u32 + 1, Reason::LineAfter);
    }
    None
}

// The first fault from the origin's line count on, which stands at `at` and is line k.
fn origin_fault(j: &[u8], at: usize, k: u32) -> Option<Fault>
    requires short { length j.now ≤ 65535 }
    requires line { k < 2 ^ 30 }
    ensures { result ≡ origin_fault k (lines_at j.now at) }
{
    let Some(s) = read_section(j, at) else {
        return at_line(k, section_reason(j, at, k));
    };
    if s.lines != 1 {
        return at_line(k, Reason::NotOneLine);
    }
    match read_origin(&mut [], j, s.from, s.lines) {
        None => {
            let e = line_end(j, s.from);
            at_line(k + 1, name_reason(&j[s.from..e]))
        }
        Some(_) => records_fault(j, s.to, k + 2),
    }
}

// The first fault of a job, if there is one.
pub fn first_fault(j: &[u8]) -> Option<Fault>
    ensures { result ≡ fault_of j.now }
{
    if 65535 < j.len() {
        return Some(Fault {
            line: None,
            reason: Reason::TooLong,
        });
    }
    let Some(s) = read_section(j, 0) else {
        return at_line(1, section_reason(j, 0, 1));
    };
    origin_fault(j, s.to, s.lines as u32 + 2)
}
