// Reads the parts of an address, each a number of one or two octets, with marks between them.
ghost use Rattle.std.specs.Prelude.{MatchOption, IfSome, position, eqb, [], ◌∷◌, ◌+◌, ◌^◌, ◌<◌, ◌≤◌, ◌≡◌, length};
ghost use Rattle.format.specs.Octets.{split_on};
ghost use Rattle.format.specs.Digits.{digits, digit_value};
ghost use Rattle.format.specs.Hex.{hex_pair};
ghost use Rattle.format.specs.Address.{small_number, group_of};
ghost use Rattle.buffer.specs.Writing.{Wrote, Values};
ghost use Rattle.address.specs.Part.{hex_number, zero_first, mark_of, width_of, value_of, piece_of, parts_of};

use buffer::{put, put_octet};

// The value of a hex digit.
fn hex_value(b: u8) -> Option<u8>
    ensures { result ≡ digit_value 16 b }
{
    match b {
        b'0'..=b'9' => Some(b - b'0'),
        b'A'..=b'F' => Some(b - b'A' + 10),
        b'a'..=b'f' => Some(b - b'a' + 10),
        _ => None,
    }
}

// The number of at most four hex digits.
fn hex(t: &[u8]) -> Option<u64>
    requires { length t.now ≤ 4 }
    ensures { result ≡ hex_number t.now }
{
    let mut v: u64 = 0;
    for b in t {
        let d = hex_value(*b)?;
        v = v * 16 + u64::from(d);
    }
    Some(v)
}

// The number of exactly two hex digits.
fn pair(t: &[u8]) -> Option<u64>
    ensures { result ≡ hex_pair t.now }
{
    if t.len() != 2 {
        return None;
    }
    hex(t)
}

// The number of 1 to 4 hex digits.
fn group(t: &[u8]) -> Option<u64>
    ensures { result ≡ group_of t.now }
{
    if t.is_empty() || 4 < t.len() {
        return None;
    }
    hex(t)
}

// Whether a zero comes first, with another octet after it.
fn zero_first(t: &[u8]) -> bool
    ensures { result ≡ zero_first t.now }
{
    matches!(t, [b'0', _, ..])
}

// The decimal number, if it is 0 to 255 without leading zeros.
fn small(t: &[u8]) -> Option<u64>
    ensures { result ≡ small_number t.now }
{
    let v = octets::decimal(t)?;
    if 255 < v || zero_first(t) {
        return None;
    }
    Some(v)
}

// The place of the first mark, where the first part ends.
pub fn part_end(t: &[u8], mark: u8) -> Option<usize>
    ensures { result ≡ position (λ x. eqb x mark) t.now }
{
    t.iter().position(|b| *b == mark)
}

// The first part, up to the first mark, and what follows that mark; none if there is no mark.
pub fn first_part(t: &[u8], mark: u8) -> Option<(&[u8], &[u8])>
    ensures parts { MatchOption result (split_on mark t.now ≡ t.now ∷ []) (λ p. split_on mark t.now ≡ p.0.now ∷ split_on mark p.1.now) }
    ensures shorter { IfSome result (λ p. length p.0.now + length p.1.now + 1 ≡ length t.now) }
{
    let z = part_end(t, mark)?;
    Some((&t[..z], &t[z + 1..]))
}

// The forms of a part: two hex digits, a number 0 to 255, a group of 1 to 4 hex digits.
#[derive(Clone, Copy)]
pub enum PartForm {
    Pair,
    Small,
    Group,
}

impl PartForm {
    // The mark between parts.
    pub fn mark(self) -> u8
        ensures { result ≡ mark_of self }
    {
        match self {
            PartForm::Pair => b'-',
            PartForm::Small => b'.',
            PartForm::Group => b':',
        }
    }

    // The number of a part.
    pub fn number(self, t: &[u8]) -> Option<u64>
        ensures { result ≡ value_of self t.now }
    {
        match self {
            PartForm::Pair => pair(t),
            PartForm::Small => small(t),
            PartForm::Group => group(t),
        }
    }

    // Writes a number in the octets of a part.
    pub fn put_number(self, out: &mut [u8], at: usize, v: u64) -> usize
        requires { at < 2 ^ 32 }
        ensures { Wrote out.old out.new at result (digits 256 (width_of self) v) }
    {
        if let PartForm::Group = self {
            put(out, at, (v / 256 % 256) as u8);
            put(out, at + 1, (v % 256) as u8);
            return at + 2;
        }
        put_octet(out, at, (v % 256) as u8)
    }

    // Reads one part into its octets.
    pub fn piece(self, out: &mut [u8], at: usize, t: &[u8]) -> Option<usize>
        requires { at < 2 ^ 32 }
        ensures { Values out.old out.new at result (piece_of self t.now) }
    {
        let v = self.number(t)?;
        Some(self.put_number(out, at, v))
    }

    // Reads exactly w parts into their octets.
    pub fn parts(self, out: &mut [u8], at: usize, w: usize, t: &[u8]) -> Option<usize>
        requires place { at < 2 ^ 31 }
        requires count { w ≤ 8 }
        ensures { Values out.old out.new at result (parts_of self w t.now) }
    {
        let mut m = at;
        let mut rest = t;
        for left in (0..w).rev() {
            let Some((part, next)) = first_part(rest, self.mark()) else {
                return if left == 0 {
                    self.piece(out, m, rest)
                } else {
                    None
                };
            };
            m = self.piece(out, m, part)?;
            rest = next;
        }
        None
    }
}
