// A picture of 256 windows of 32 octets: one bit for each type, set if the picture holds the type.
#![tactic(auto)]

ghost use Rattle.std.specs.Prelude.{ℕ, ◌+◌, ◌^◌, ◌<◌, ◌≤◌, ◌≡◌, List, [], ◌∷◌, ◌++◌, length};
ghost use Rattle.format.specs.Lists.{all_of};
ghost use Rattle.format.specs.Bitmap.{without_last_zeros, block_of, blocks};
ghost use Rattle.buffer.specs.Writing.{Wrote};
ghost use Rattle.bitmap_picture.specs.Windows.{zero_octet, Holds};

use buffer::{put_all, put_octet};

// A picture, no window of which from `top` on holds a type.
#[derive(Drop)]
pub struct Picture {
    pub windows: [[u8; 32]; 256],
    pub top: usize,
    ghost few: { top ≤ 256 },
}

impl Picture {
    // A picture that holds no type.
    pub fn empty() -> Picture
        ensures { Holds result.windows result.top [] }
    {
        Picture {
            windows: [[0; 32]; 256],
            top: 0,
        }
    }

    // Adds the type v to the picture.
    pub fn mark(&mut self, v: u64)
        requires { v < 65536 }
        ensures { (ts : List ℕ) → Holds self.old.windows self.old.top ts → Holds self.new.windows self.new.top (ts ++ v ∷ []) }
    {
        let w = (v / 256) as usize;
        let b = (v % 256 / 8) as usize;
        self.windows[w][b] |= 128 >> (v % 8) as u8;
        self.top = self.top.max(w + 1);
    }

    // Writes the blocks of the picture.
    pub fn put_blocks(&self, out: &mut [u8], at: usize) -> usize
        requires { at < 2 ^ 30 }
        ensures { (ts : List ℕ) → Holds self.now.windows self.now.top ts → Wrote out.old out.new at result (blocks ts) }
    {
        let mut k = at;
        for w in 0..self.top {
            k = put_block(out, k, w as u8, &self.windows[w]);
        }
        k
    }
}

// How many octets a window has without its last zeros.
fn count(r: &[u8]) -> usize
    ensures { result ≡ length (without_last_zeros r.now) }
{
    for n in (0..r.len()).rev() {
        if r[n] != 0 {
            return n + 1;
        }
    }
    0
}

// Whether a window holds no type. The loop has no early exit, so that many octets are tested at once.
fn is_empty(r: &[u8]) -> bool
    ensures { result ≡ all_of zero_octet r.now }
{
    let mut all = true;
    for x in r {
        all &= *x == 0;
    }
    all
}

// Writes the block of window w, if it holds any type.
fn put_block(out: &mut [u8], at: usize, w: u8, r: &[u8; 32]) -> usize
    requires { at < 2 ^ 31 }
    ensures block { Wrote out.old out.new at result (block_of w (without_last_zeros r.now)) }
    ensures short { result ≤ at + 34 }
{
    if is_empty(r) {
        return at;
    }
    let c = count(r);
    let a = put_octet(out, at, w);
    let b = put_octet(out, a, c as u8);
    put_all(out, b, &r[..c])
}
