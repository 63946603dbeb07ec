// Reads digits of W bits into octets, K digits at a time, which are whole octets. An alphabet gives the number of each octet.
#![tactic(auto)]

ghost use Rattle.std.specs.Prelude.{ℕ, ◌+◌, ◌*◌, ◌/◌, ◌^◌, ◌<◌, ◌≤◌, ◌≡◌, length, get_or, drop, Some};
ghost use Rattle.format.specs.Digits.{digits};
ghost use Rattle.format.specs.Base.{whole_octets};
ghost use Rattle.buffer.specs.Writing.{Values};
ghost use Rattle.base_group.specs.Group.{left_out, Grouping, Taken, Stops, Groups, octets_by, letters, counted_by};

use buffer::put;
use digits::put_octets;

// The number of each octet. An octet whose number is `skip` is left out; others are digits if their number is small enough.
#[derive(Clone, Copy)]
pub struct Alphabet<'a> {
    pub numbers: &'a [u8; 256],
    pub skip: u64,
}

impl Alphabet<'_> {
    // The number of an octet.
    fn number_of(self, b: u8) -> u64
        ensures { result ≡ get_or self.entry.numbers.now b 0 }
    {
        u64::from(self.numbers[usize::from(b)])
    }

    // Whether an octet is left out.
    pub fn leaves_out(self, b: u8) -> bool
        ensures { result ≡ left_out self.entry.numbers.now self.entry.skip b }
    {
        self.number_of(b) == self.skip
    }
}

// 2 to the power z.
fn power(z: usize) -> u64
    requires { z < 8 }
    ensures { result ≡ 2 ^ z }
{
    1 << z
}

// Digits that were read: how many octets hold them, how many they are, and the number that they make.
#[derive(Clone, Copy)]
pub struct Digits {
    pub taken: usize,
    pub count: usize,
    pub number: u64,
}

// The number that the first K octets make, if they are all digits.
fn next_digits<const W: usize, const K: usize>(t: &[u8], alphabet: Alphabet) -> Option<u64>
    requires long { K ≤ length t.now }
    requires few_bits { W ≤ 6 }
    requires few_digits { K ≤ 8 }
    requires none_left_out { 2 ^ W ≤ alphabet.skip }
    ensures { (v : ℕ) → result ≡ Some v → Taken alphabet.entry.numbers.now alphabet.entry.skip (2 ^ W) t.now K K v }
{
    let base = power(W);
    let mut v = 0;
    for j in 0..K {
        let x = alphabet.number_of(t[j]);
        if base <= x {
            return None;
        }
        v = v * base + x;
    }
    Some(v)
}

// The first digits, at most K, with what is left out between them and after them.
fn some_digits<const W: usize, const K: usize>(t: &[u8], alphabet: Alphabet) -> Digits
    requires few_bits { W ≤ 6 }
    requires few_digits { K ≤ 8 }
    ensures taken { Taken alphabet.entry.numbers.now alphabet.entry.skip (2 ^ W) t.now result.taken result.count result.number }
    ensures few { result.count ≤ K }
    ensures stops { result.taken < length t.now → result.count < K → Stops alphabet.entry.numbers.now alphabet.entry.skip (2 ^ W) (get_or t.now result.taken 0) }
{
    let base = power(W);
    let mut count = 0;
    let mut number = 0;
    for (taken, b) in t.iter().enumerate() {
        let x = alphabet.number_of(*b);
        if x != alphabet.skip {
            if count == K || base <= x {
                return Digits {
                    taken,
                    count,
                    number,
                };
            }
            number = number * base + x;
            count += 1;
        }
    }
    Digits {
        taken: t.len(),
        count,
        number,
    }
}

// The first digits, at most K; the quick way is tried first.
fn take_digits<const W: usize, const K: usize>(t: &[u8], alphabet: Alphabet) -> Digits
    requires few_bits { W ≤ 6 }
    requires few_digits { K ≤ 8 }
    ensures taken { Taken alphabet.entry.numbers.now alphabet.entry.skip (2 ^ W) t.now result.taken result.count result.number }
    ensures few { result.count ≤ K }
    ensures stops { result.taken < length t.now → result.count < K → Stops alphabet.entry.numbers.now alphabet.entry.skip (2 ^ W) (get_or t.now result.taken 0) }
{
    if K <= t.len() && power(W) <= alphabet.skip {
        if let Some(number) = next_digits::<W, K>(t, alphabet) {
            return Digits {
                taken: K,
                count: K,
                number,
            };
        }
    }
    some_digits::<W, K>(t, alphabet)
}

// Whole groups of digits in the first `from` octets, whose octets are stored up to `end`; and the digits after them, too few
// for a group.
#[derive(Clone, Copy)]
pub struct Front {
    pub end: usize,
    pub from: usize,
    pub last: Digits,
}

// Reads all whole groups of digits, and the digits after them. With constants for W and K the inner loops are unrolled.
pub fn groups<const W: usize, const K: usize>(
    out: &mut [u8],
    at: usize,
    t: &[u8],
    alphabet: Alphabet,
) -> Front
    requires room { at ≤ 2 ^ 30 }
    requires short { length t.now ≤ 2 ^ 24 }
    requires grouping { Grouping W K }
    ensures whole { Groups out.old out.new at alphabet.entry.numbers.now alphabet.entry.skip W K t.now result.from result.end }
    ensures last { Taken alphabet.entry.numbers.now alphabet.entry.skip (2 ^ W) (drop result.from t.now) result.last.taken result.last.count result.last.number }
    ensures few { result.last.count < K }
    ensures stops { result.from + result.last.taken < length t.now → Stops alphabet.entry.numbers.now alphabet.entry.skip (2 ^ W) (get_or t.now (result.from + result.last.taken) 0) }
{
    let mut end = at;
    let mut from = 0;
    loop {
        let last = take_digits::<W, K>(&t[from..], alphabet);
        if last.count < K {
            return Front { end, from, last };
        }
        end = put_octets(out, end, W * K / 8, last.number);
        from += last.taken;
    }
}

// Writes the octets of the last digits, which have W bits. The left-over bits must be zero and fewer than W.
pub fn finish<const W: usize>(out: &mut [u8], at: usize, last: Digits) -> Option<usize>
    requires room { at < 2 ^ 32 }
    requires some_bits { 0 < W }
    requires few_bits { W ≤ 6 }
    requires few_digits { last.count ≤ 8 }
    requires small { last.number < 2 ^ (W * last.count) }
    ensures { Values out.old out.new at result (whole_octets W 8 0 (digits 2 (W * last.count) last.number)) }
{
    let z = W * last.count % 8;
    if W <= z {
        return None;
    }
    let p = power(z);
    if last.number % p != 0 {
        return None;
    }
    Some(put_octets(out, at, W * last.count / 8, last.number / p))
}

// Reads digits; nothing else may stand there, but for what is left out.
fn octets<const W: usize, const K: usize>(
    out: &mut [u8],
    at: usize,
    t: &[u8],
    alphabet: Alphabet,
) -> Option<usize>
    requires room { at ≤ 2 ^ 30 }
    requires short { length t.now ≤ 2 ^ 24 }
    requires grouping { Grouping W K }
    ensures { Values out.old out.new at result (octets_by alphabet.entry.numbers.now alphabet.entry.skip W t.now) }
{
    let f = groups::<W, K>(out, at, t, alphabet);
    if f.from + f.last.taken < t.len() {
        return None;
    }
    finish::<W>(out, f.end, f.last)
}

// The same with the digits 0 to 9 and then letters, in either case. 64 stands for a blank, 99 for an octet that is no digit.
pub fn lettered<const W: usize, const K: usize>(
    out: &mut [u8],
    at: usize,
    t: &[u8],
    skip: u64,
) -> Option<usize>
    requires room { at ≤ 2 ^ 30 }
    requires short { length t.now ≤ 2 ^ 24 }
    requires grouping { Grouping W K }
    ensures { Values out.old out.new at result (octets_by letters skip W t.now) }
{
    let numbers =
        b"\x63\x63\x63\x63\x63\x63\x63\x63\x63\x40\x63\x63\x63\x63\x63\x63\x63\x63\x63\x63\x63\x63\x63\x63\x63\x63\x63\x63\x63\x63\x63\x63\x40\x63\x63\x63\x63\x63\x63\x63\x63\x63\x63\x63\x63\x63\x63\x63\x00\x01\x02\x03\x04\x05\x06\x07\x08\x09\x63\x63\x63\x63\x63\x63\x63\x0a\x0b\x0c\x0d\x0e\x0f\x10\x11\x12\x13\x14\x15\x16\x17\x18\x19\x1a\x1b\x1c\x1d\x1e\x1f\x63\x63\x63\x63\x63\x63\x63\x63\x63\x63\x0a\x0b\x0c\x0d\x0e\x0f\x10\x11\x12\x13\x14\x15\x16\x17\x18\x19\x1a\x1b\x1c\x1d\x1e\x1f\x63\x63\x63\x63\x63\x63\x63\x63\x63\x63\x63\x63\x63\x63\x63\x63\x63\x63\x63\x63\x63\x63\x63\x63\x63\x63\x63\x63\x63\x63\x63\x63\x63\x63\x63\x63\x63\x63\x63\x63\x63\x63\x63\x63\x63\x63\x63\x63\x63\x63\x63\x63\x63\x63\x63\x63\x63\x63\x63\x63\x63\x63\x63\x63\x63\x63\x63\x63\x63\x63\x63\x63\x63\x63\x63\x63\x63\x63\x63\x63\x63\x63\x63\x63\x63\x63\x63\x63\x63\x63\x63\x63\x63\x63\x63\x63\x63\x63\x63\x63\x63\x63\x63\x63\x63\x63\x63\x63\x63\x63\x63\x63\x63\x63\x63\x63\x63\x63\x63\x63\x63\x63\x63\x63\x63\x63\x63\x63\x63\x63\x63\x63\x63\x63\x63\x63\x63";
    octets::<W, K>(out, at, t, Alphabet { numbers, skip })
}

// Reads digits, and stores the octets after their count, which is stored last.
pub fn counted<const W: usize, const K: usize>(out: &mut [u8], at: usize, t: &[u8]) -> Option<usize>
    requires room { at < 2 ^ 30 }
    requires short { length t.now ≤ 1048576 }
    requires grouping { Grouping W K }
    ensures { Values out.old out.new at result (counted_by W t.now) }
{
    // no octet has the number 100, so none is left out
    let m = lettered::<W, K>(out, at + 1, t, 100)?;
    let count = u8::try_from(m - (at + 1)).ok()?;
    if count == 0 {
        return None;
    }
    put(out, at, count);
    Some(m)
}
