// Takes a run of fields off the wire.
#![tactic(auto)]

ghost use Rattle.std.specs.Prelude.{ℕ, ◌+◌, ◌≤◌, ◌<◌, ◌≡◌, ◌^◌, List, length};
ghost use Rattle.stanza_form.specs.Code.{fields_of};
ghost use Rattle.run_wire.specs.Run.{kinds_of, number_of, Checks};

use buffer::Lack;

// Why octets or a text are refused: the refusal's number and place.
#[derive(Clone, Copy, PartialEq, Eq)]
pub struct Refusal {
    pub number: u32,
    pub place: u32,
}

// The refusal of the field number k, counted from 0, that has no value.
pub fn lacking(why: Lack, k: usize) -> Refusal
    requires { k < 2 ^ 31 }
    ensures number { result.number ≡ number_of why }
    ensures place { result.place ≡ k + 1 }
{
    let number = match why {
        Lack::Missing => 8,
        Lack::Fault => 9,
    };
    Refusal {
        number,
        place: k as u32 + 1,
    }
}

// The refusal of what is left over after so many fields.
pub fn left_over(many: usize) -> Refusal
    requires { many < 2 ^ 31 }
    ensures number { result.number ≡ 10 }
    ensures place { result.place ≡ many + 1 }
{
    Refusal {
        number: 10,
        place: many as u32 + 1,
    }
}

// Takes the fields of a run, given by their codes, from the left.
pub fn check(codes: &[u64], p: &[u8]) -> Result<(), Refusal>
    requires fields { length codes.now ≤ 64 }
    requires octets { length p.now ≤ 65535 }
    ensures { (s : List ℕ) → Checks (kinds_of s (fields_of codes.now)) p.now result }
{
    let mut at = 0;
    for (k, code) in codes.iter().enumerate() {
        let d = stanza_form::field(*code);
        match field_wire::take_field(d.form, &p[at..]) {
            Ok(w) => at += w,
            Err(why) => return Err(lacking(why, k)),
        }
    }
    if at < p.len() {
        return Err(left_over(codes.len()));
    }
    Ok(())
}
