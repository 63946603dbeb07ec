// Reading and writing for programs: a read that failed is never taken for the end of the input, and what was lost is told on
// standard error.
//
// The functions go over any reader and any writer of std; a program hands them standard input, output and error, which have no
// buffer: a read here is one read of the system, a write one write, and none that a signal cut short is tried again.
//
// Proved: what an answer of a read means (`told`); that what a function here answers is what answers that a read may give make of
// it, each judged by `told` (`Once`, `Reading`); and of readers and writers whose octets are known, that what is read are the
// first octets that were left (`Took`, `Drained`), and what is written are the octets handed over and the words for what was lost
// (`Written`, `Begun`, `Told`). Of standard input, output and error nothing says which octets a call of the system moves: that is
// tested, by tests/faults, which makes each read and each write fail.
#![tactic(auto)]

ghost use Rattle.std.specs.Prelude.{◌<◌, ◌≤◌, ◌≡◌, length, is_ok, IfOk};
ghost use Rattle.streams.specs.Reading.{told, Once, Took, Reading, Drained};
ghost use Rattle.streams.specs.Writing.{Written, Begun, Told, unread_words, lost_words, ToldIfLost};

use std::io;
use std::io::{ErrorKind, Stderr, Stdin, Stdout, Write};

// The three streams that a program is handed.
#[derive(Clone, Copy)]
pub struct Standard {
    pub input: Stdin,
    pub output: Stdout,
    pub error: Stderr,
}

// What the answer of a read means that was handed room for `most` octets: none is the end of the input, and a read that failed, for
// whatever reason, is never the end.
pub fn told(got: io::Result<usize>, most: usize) -> io::Result<Option<usize>>
    ensures { result ≡ told got most }
{
    let n = got?;
    if n == 0 {
        return Ok(None);
    }
    Ok(Some(n.min(most)))
}

// Reads once into the room, and returns how many octets were taken, or none at the end of the input. There must be room, since a
// read into no room answers 0, as at the end.
pub fn read_once<R: io::Read>(input: &mut R, room: &mut [u8]) -> io::Result<Option<usize>>
    requires { 0 < length room.old }
    ensures once { Once (length room.old) result }
    ensures octets { Took (R.remaining input.old) (R.remaining input.new) result room.new }
{
    let got = input.read(room);
    told(got, room.len())
}

// Reads until the input ends, the buffer is full or a read fails, and returns how many octets were read. A read may take fewer
// octets than there is room for.
pub fn read_all<R: io::Read>(input: &mut R, buf: &mut [u8]) -> io::Result<usize>
    ensures within { IfOk result (λ n. n ≤ length buf.old) }
    ensures reading { Reading buf.old 0 result buf.new }
    ensures octets { Drained (R.remaining input.old) (R.remaining input.new) result buf.new }
{
    let mut n = 0;
    while n < buf.len() {
        match read_once(input, &mut buf[n..])? {
            None => return Ok(n),
            Some(k) => n += k,
        }
    }
    Ok(n)
}

// Writes all octets, or stops at the first write that takes none or fails, for whatever reason.
fn put_all<W: Write>(to: &mut W, xs: &[u8]) -> io::Result<()>
    ensures { Written (W.contents to.old) (W.contents to.new) (is_ok result) xs.now }
{
    let mut rest = xs;
    while !rest.is_empty() {
        let n = to.write(rest)?;
        if n == 0 {
            return Err(ErrorKind::WriteZero.into());
        }
        rest = &rest[n..];
    }
    Ok(())
}

// Writes words to standard error. If that fails too, nobody can be told.
pub fn say<E: Write>(err: &mut E, words: &[u8])
    ensures { Begun (E.contents err.old) (E.contents err.new) words.now }
{
    let _ = put_all(err, words);
}

// Writes one line to standard error: the program's name and the words.
fn tell<E: Write>(err: &mut E, program: &[u8], words: &[u8])
    ensures { Told (E.contents err.old) (E.contents err.new) program.now words.now }
{
    say(err, program);
    say(err, words);
}

// Tells that the input could not be read.
pub fn unread<E: Write>(err: &mut E, program: &[u8])
    ensures { Told (E.contents err.old) (E.contents err.new) program.now unread_words }
{
    tell(err, program, b": the input could not be read\n");
}

// Tells that answers are lost.
pub fn lost<E: Write>(err: &mut E, program: &[u8])
    ensures { Told (E.contents err.old) (E.contents err.new) program.now lost_words }
{
    tell(err, program, b": the answers could not be written\n");
}

// Writes all octets to standard output, or tells that answers are lost.
pub fn write_all<O: Write, E: Write>(
    out: &mut O,
    err: &mut E,
    program: &[u8],
    xs: &[u8],
) -> io::Result<()>
    ensures written { Written (O.contents out.old) (O.contents out.new) (is_ok result) xs.now }
    ensures told { ToldIfLost (E.contents err.old) (E.contents err.new) (is_ok result) program.now }
{
    let written = put_all(out, xs);
    if written.is_err() {
        lost(err, program);
    }
    written
}
