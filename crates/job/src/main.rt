// The program: reads a job from standard input, and writes the line that answers each of its records. Nothing is answered before
// all is read, and an input that could not be read is a bad job: what came before the failure may look like a whole one. Why a job
// is bad is told on standard error.
#![tactic(auto)]

ghost use Rattle.job.specs.Room.{Enough};

use job_fault::fault::first_fault;
use job_fault::words::put_words;
use job_line::put_bad_job;
use std::io;
use streams::Standard;

// One octet more than a job may have, so that a job that is too long is noticed.
const LONGEST: usize = 65536;

// Twice the longest line, so that every turn but the last fills at least half of it.
const ROOM: usize = 262148;

// Writes octets to standard output, or tells that they are lost.
fn write(to: &mut Standard, xs: &[u8]) -> io::Result<()> {
    streams::write_all(&mut to.output, &mut to.error, b"job", xs)
}

// Answers the job turn by turn, unless a write fails.
fn answer(to: &mut Standard, j: &[u8], out: &mut [u8; ROOM]) -> io::Result<()> {
    let job = job_turns::begin(j);
    let mut rest = Some(job_turns::first(&job));
    while let Some(at) = rest {
        let turn = job_turns::next(out, j, &job, at);
        write(to, &out[..turn.taken])?;
        rest = turn.rest;
    }
    Ok(())
}

// Tells on standard error which line breaks the form, and why; of a job that has the form there is nothing to tell.
fn tell_fault(to: &mut Standard, j: &[u8], out: &mut [u8; ROOM]) {
    let n = put_words(out, 0, first_fault(j));
    streams::say(&mut to.error, &out[..n.min(ROOM)]);
}

// Answers an input that could not be read.
fn refuse(to: &mut Standard, out: &mut [u8; ROOM]) -> io::Result<()> {
    streams::unread(&mut to.error, b"job");
    let n = put_bad_job(out, 0);
    write(to, &out[..n])
}

// Reads standard input, and answers the job in it. The buffer shows of any input whether it is too long for a job.
fn run(to: &mut Standard, input: &mut [u8; LONGEST], out: &mut [u8; ROOM])
    requires { Enough input.old }
{
    match streams::read_all(&mut to.input, input) {
        Ok(n) => {
            let _ = answer(to, &input[..n], out);
            tell_fault(to, &input[..n], out);
        }
        Err(_) => {
            let _ = refuse(to, out);
        }
    }
}

// Lends the streams and the buffers to `run`.
fn main(rt: HostRuntime) {
    let mut to = Standard {
        input: rt.stdin(),
        output: rt.stdout(),
        error: rt.stderr(),
    };
    let mut input = [0u8; LONGEST];
    let mut out = [0u8; ROOM];
    run(&mut to, &mut input, &mut out);
}
