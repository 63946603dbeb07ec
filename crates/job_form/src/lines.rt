// The lines of a job, and its sections.
ghost use Rattle.std.specs.Prelude.{◌+◌, ◌≤◌, ◌<◌, length};
ghost use Rattle.job_form.specs.Lines.{NextLine, SomeLine, Skips, Sections};

// A section: where its lines begin, the place after them, and their number.
#[derive(Clone, Copy)]
pub struct Section {
    pub from: usize,
    pub to: usize,
    pub lines: u64,
}

// The end of the line that begins at `at`.
pub fn line_end(j: &[u8], at: usize) -> usize
    requires { at < length j.now }
    ensures { NextLine j.now at result }
{
    octets::line_end(j, at)
}

// The same, or none if no line begins there.
pub fn next_line(j: &[u8], at: usize) -> Option<usize>
    ensures { SomeLine j.now at result }
{
    if j.len() <= at {
        return None;
    }
    Some(line_end(j, at))
}

// The place after n lines, the first of which begins at `at`; none if there are too few.
fn skip_lines(j: &[u8], at: usize, n: u64) -> Option<usize>
    requires { at ≤ length j.now + 1 }
    ensures { Skips j.now at n result }
{
    let mut m = at;
    for _ in 0..n {
        m = next_line(j, m)? + 1;
    }
    Some(m)
}

// The section whose line count is the line that begins at `at`.
#[tactic(auto, using(octets::proofs::Slices::lent))]
pub fn read_section(j: &[u8], at: usize) -> Option<Section>
    ensures { Sections j.now at result }
{
    let e = next_line(j, at)?;
    let lines = octets::decimal(&j[at..e])?;
    let to = skip_lines(j, e + 1, lines)?;
    Some(Section {
        from: e + 1,
        to,
        lines,
    })
}
