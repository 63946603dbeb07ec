// Readers of octets written as digits of some bits: hex, base 32 in the extended hex alphabet, and base 64.
ghost use Rattle.std.specs.Prelude.{◌<◌, ◌^◌, ◌≤◌, length, replicate, ◌≡◌};
ghost use Rattle.base_group.specs.Group.{base64_numbers, left_out, without};
ghost use Rattle.base.specs.Rest.{Gets};
ghost use Rattle.buffer.specs.Writing.{Values};
ghost use Rattle.format.specs.Base.{read_base32, read_base64};
ghost use Rattle.format.specs.Hex.{from_hex, read_counted_hex};
ghost use Rattle.format.specs.Octets.{blank, same_octets};
ghost use Rattle.format.specs.Run.{joined_bares};
ghost use Rattle.format.specs.Token.{tokens};

use base_group::Alphabet;
use buffer::{Lack, put_octet};

// Reads base 32 from one token, and stores the octets after their count.
pub fn counted_base32(out: &mut [u8], at: usize, t: &[u8]) -> Option<usize>
    requires room { at < 2 ^ 30 }
    requires short { length t.now ≤ 1048576 }
    ensures { Values out.old out.new at result (read_base32 t.now) }
{
    base_group::counted::<5, 8>(out, at, t)
}

// Reads hex digits from one token, and stores the octets after their count; `-` is a count of 0.
pub fn counted_hex(out: &mut [u8], at: usize, t: &[u8]) -> Option<usize>
    requires room { at < 2 ^ 30 }
    requires short { length t.now ≤ 1048576 }
    ensures { Values out.old out.new at result (read_counted_hex t.now) }
{
    if octets::is_alone(t, b'-') {
        return Some(put_octet(out, at, 0));
    }
    base_group::counted::<4, 8>(out, at, t)
}

// Whether there are exactly k of `=`, and nothing else but what is left out.
fn padded(t: &[u8], alphabet: Alphabet, k: usize) -> bool
    ensures { result ≡ same_octets (without (left_out alphabet.entry.numbers.now alphabet.entry.skip) t.now) (replicate k 61) }
{
    let mut q = k;
    for b in t {
        if !alphabet.leaves_out(*b) {
            if q == 0 || *b != b'=' {
                return false;
            }
            q -= 1;
        }
    }
    q == 0
}

// Reads base 64 from all the characters, with the numbers of its alphabet.
fn base64_by(out: &mut [u8], at: usize, t: &[u8], numbers: &[u8; 256]) -> Option<usize>
    requires room { at < 2 ^ 30 }
    requires short { length t.now ≤ 1048576 }
    requires alphabet { numbers.now ≡ base64_numbers }
    ensures { Values out.old out.new at result (read_base64 (without blank t.now)) }
{
    let alphabet = Alphabet { numbers, skip: 64 };
    let f = base_group::groups::<6, 4>(out, at, t, alphabet);
    let d = f.last;
    if padded(&t[f.from + d.taken..], alphabet, (4 - d.count) % 4) {
        return base_group::finish::<6>(out, f.end, d);
    }
    None
}

// The same, with the alphabet in a table: 64 stands for a blank, 99 for an octet that is no digit.
fn base64(out: &mut [u8], at: usize, t: &[u8]) -> Option<usize>
    requires room { at < 2 ^ 30 }
    requires short { length t.now ≤ 1048576 }
    ensures { Values out.old out.new at result (read_base64 (without blank t.now)) }
{
    let numbers =
        b"\x63\x63\x63\x63\x63\x63\x63\x63\x63\x40\x63\x63\x63\x63\x63\x63\x63\x63\x63\x63\x63\x63\x63\x63\x63\x63\x63\x63\x63\x63\x63\x63\x40\x63\x63\x63\x63\x63\x63\x63\x63\x63\x63\x3e\x63\x63\x63\x3f\x34\x35\x36\x37\x38\x39\x3a\x3b\x3c\x3d\x63\x63\x63\x63\x63\x63\x63\x00\x01\x02\x03\x04\x05\x06\x07\x08\x09\x0a\x0b\x0c\x0d\x0e\x0f\x10\x11\x12\x13\x14\x15\x16\x17\x18\x19\x63\x63\x63\x63\x63\x63\x1a\x1b\x1c\x1d\x1e\x1f\x20\x21\x22\x23\x24\x25\x26\x27\x28\x29\x2a\x2b\x2c\x2d\x2e\x2f\x30\x31\x32\x33\x63\x63\x63\x63\x63\x63\x63\x63\x63\x63\x63\x63\x63\x63\x63\x63\x63\x63\x63\x63\x63\x63\x63\x63\x63\x63\x63\x63\x63\x63\x63\x63\x63\x63\x63\x63\x63\x63\x63\x63\x63\x63\x63\x63\x63\x63\x63\x63\x63\x63\x63\x63\x63\x63\x63\x63\x63\x63\x63\x63\x63\x63\x63\x63\x63\x63\x63\x63\x63\x63\x63\x63\x63\x63\x63\x63\x63\x63\x63\x63\x63\x63\x63\x63\x63\x63\x63\x63\x63\x63\x63\x63\x63\x63\x63\x63\x63\x63\x63\x63\x63\x63\x63\x63\x63\x63\x63\x63\x63\x63\x63\x63\x63\x63\x63\x63\x63\x63\x63\x63\x63\x63\x63\x63\x63\x63\x63\x63\x63\x63\x63\x63\x63";
    base64_by(out, at, t, numbers)
}

// Reads hex digits from all tokens: an octet that is neither a digit nor a blank is a fault, whatever token it is in.
pub fn hex_rest(out: &mut [u8], at: usize, t: &[u8]) -> Result<usize, Lack>
    requires room { at < 2 ^ 30 }
    requires short { length t.now ≤ 1048576 }
    ensures { Gets out.old out.new at result (joined_bares from_hex (tokens t.now)) }
{
    let Some(m) = base_group::lettered::<4, 8>(out, at, t, 64) else {
        return Err(Lack::Fault);
    };
    if m <= at {
        return Err(Lack::Missing);
    }
    Ok(m)
}

// Reads base 64 from all tokens: the same holds of an octet that is no digit, no blank and no padding.
pub fn base64_rest(out: &mut [u8], at: usize, t: &[u8]) -> Result<usize, Lack>
    requires room { at < 2 ^ 30 }
    requires short { length t.now ≤ 1048576 }
    ensures { Gets out.old out.new at result (joined_bares read_base64 (tokens t.now)) }
{
    let Some(m) = base64(out, at, t) else {
        return Err(Lack::Fault);
    };
    if m <= at {
        return Err(Lack::Missing);
    }
    Ok(m)
}
