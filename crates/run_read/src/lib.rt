// Reads a run of fields from the tokens of a text.
#![tactic(auto)]

ghost use Rattle.std.specs.Prelude.{◌≤◌, ◌≡◌, length, drop};
ghost use Rattle.format.specs.Lists.{null};
ghost use Rattle.format.specs.Token.{tokens};
ghost use Rattle.format.specs.Run.{read_field, read_run};
ghost use Rattle.stanza_form.specs.Code.{fields_of};
ghost use Rattle.run_wire.specs.Run.{kinds_of, UsableRun};
ghost use Rattle.catalogue.specs.Known.{names_in};
ghost use Rattle.run_read.specs.Reading.{Reads};

use field_read::Under;
use run_wire::{Refusal, lacking, left_over};
use tokens::next_token;

// Whether no token is left from i on.
fn none_from(t: &[u8], i: usize) -> bool
    requires place { i ≤ length t.now }
    requires text { length t.now ≤ 1048576 }
    ensures { result ≡ null (tokens (drop i t.now)) }
{
    if i == t.len() {
        return true;
    }
    next_token(t, i).is_none()
}

// Reads the fields of a run, given by their codes: how many octets they have, where 65,536 stands for any number over 65,535; or
// the refusal.
pub fn read_run(out: &mut [u8], codes: &[u64], u: &Under<'_>, t: &[u8]) -> Result<usize, Refusal>
    requires run { UsableRun u.now.s.now (fields_of codes.now) }
    requires text { length t.now ≤ 1048576 }
    ensures { Reads out.old out.new result (read_run (λ k ts. read_field (names_in u.now.c) k u.now.origin.now ts) (kinds_of u.now.s.now (fields_of codes.now)) (tokens t.now)) }
{
    let mut n = 0;
    let mut i = 0;
    for (k, code) in codes.iter().enumerate() {
        match field_read::read_field(out, n, stanza_form::field(*code), u, t, i) {
            Ok((m, j)) => {
                n = m.min(65536);
                i = j;
            }
            Err(why) => return Err(lacking(why, k)),
        }
    }
    if none_from(t, i) {
        return Ok(n);
    }
    Err(left_over(codes.len()))
}
