// Prints addresses: octets in decimal, and groups of two octets in hex.
ghost use Rattle.std.specs.Prelude.{◌+◌, ◌^◌, ◌<◌, ◌≤◌, max, ◌≡◌, cond, leb, length};
ghost use Rattle.format.specs.Digits.{number};
ghost use Rattle.format.specs.Address;
ghost use Rattle.format.specs.Address.{dotted_text, group_text, colons, aaaa_text};
ghost use Rattle.buffer.specs.Writing.{Wrote};
ghost use Rattle.address.specs.Part.{width_of, text_of, texts_of};
ghost use Rattle.address.specs.Zeros.{Longest};

use crate::part::PartForm;
use buffer::put_octet;
use digits::{hex_digit, put_decimal, put_hex_octet};
use octets::integer::two;

// Writes a group in hex without leading zeros.
fn group(out: &mut [u8], at: usize, v: u64) -> usize
    requires place { at + 2 < 2 ^ 32 }
    requires group { v < 65536 }
    ensures { Wrote out.old out.new at result (group_text v) }
{
    if v < 16 {
        return put_octet(out, at, hex_digit(v as u8));
    }
    if v < 256 {
        return put_hex_octet(out, at, v as u8);
    }
    if v < 4096 {
        let m = put_octet(out, at, hex_digit((v / 256) as u8));
        return put_hex_octet(out, m, (v % 256) as u8);
    }
    let m = put_hex_octet(out, at, (v / 256) as u8);
    put_hex_octet(out, m, (v % 256) as u8)
}

impl PartForm {
    // The number of octets of a part.
    fn width(self) -> usize
        ensures { result ≡ width_of self }
    {
        match self {
            PartForm::Pair | PartForm::Small => 1,
            PartForm::Group => 2,
        }
    }

    // Writes the text of the part whose octets are x.
    fn put_text(self, out: &mut [u8], at: usize, x: &[u8]) -> usize
        requires place { at + 2 < 2 ^ 32 }
        requires octets { length x.now ≡ width_of self }
        ensures { Wrote out.old out.new at result (text_of self (number 256 x.now)) }
    {
        match self {
            PartForm::Pair => put_hex_octet(out, at, x[0]),
            PartForm::Small => put_decimal(out, at, u64::from(x[0])),
            PartForm::Group => group(out, at, two(x)),
        }
    }

    // Writes the texts of parts, with marks between them.
    pub fn texts(self, out: &mut [u8], at: usize, p: &[u8]) -> usize
        requires place { at < 2 ^ 31 }
        requires octets { length p.now ≤ 65535 }
        ensures { Wrote out.old out.new at result (texts_of self p.now) }
    {
        let w = self.width();
        let Some((x, mut rest)) = p.split_at_checked(w) else {
            return at;
        };
        let mut m = self.put_text(out, at, x);
        while let Some((x, next)) = rest.split_at_checked(w) {
            m = put_octet(out, m, self.mark());
            m = self.put_text(out, m, x);
            rest = next;
        }
        m
    }
}

// Writes octets in decimal, with dots between them.
pub fn dotted(out: &mut [u8], at: usize, p: &[u8]) -> usize
    requires place { at < 2 ^ 30 }
    requires octets { length p.now ≤ 65535 }
    ensures { Wrote out.old out.new at result (dotted_text p.now) }
{
    PartForm::Small.texts(out, at, p)
}

// Writes groups in hex, with colons between them.
pub fn groups(out: &mut [u8], at: usize, p: &[u8]) -> usize
    requires place { at < 2 ^ 31 }
    requires octets { length p.now ≤ 65535 }
    ensures { Wrote out.old out.new at result (colons (Address.groups p.now)) }
{
    PartForm::Group.texts(out, at, p)
}

// A run of zero groups: the number of groups before it, and its own.
#[derive(Clone, Copy)]
struct ZeroRun {
    at: usize,
    count: usize,
}

impl ZeroRun {
    // The longer of a run and an earlier run of z groups; the earlier one if they are equally long.
    fn longer(self, at: usize, z: usize) -> ZeroRun
        ensures place { result.at ≡ cond (leb self.count z) at self.at }
        ensures count { result.count ≡ max z self.count }
    {
        if self.count <= z {
            return ZeroRun { at, count: z };
        }
        self
    }
}

// The first of the longest runs of zero groups, searched from the last group backwards.
fn longest(p: &[u8]) -> ZeroRun
    requires { length p.now ≡ 16 }
    ensures { Longest (Address.groups p.now) result.at result.count }
{
    let mut run = ZeroRun { at: 8, count: 0 };
    let mut z = 0;
    for k in (0..8).rev() {
        z = if two(&p[2 * k..]) == 0 { z + 1 } else { 0 };
        run = run.longer(k, z);
    }
    run
}

// Writes eight groups, with `::` for the first of the longest runs of at least two zero groups.
pub fn aaaa(out: &mut [u8], at: usize, p: &[u8]) -> usize
    requires place { at < 2 ^ 30 }
    requires octets { length p.now ≡ 16 }
    ensures { Wrote out.old out.new at result (aaaa_text (Address.groups p.now)) }
{
    let run = longest(p);
    if run.count < 2 {
        return groups(out, at, p);
    }
    let a = groups(out, at, &p[..2 * run.at]);
    let b = put_octet(out, a, b':');
    let c = put_octet(out, b, b':');
    groups(out, c, &p[2 * (run.at + run.count)..])
}
