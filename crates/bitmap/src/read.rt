// Reads bitmaps: the types in all tokens, in any order, go into a picture, and from there into blocks.
ghost use Rattle.std.specs.Prelude.{ℕ, ◌^◌, ◌<◌, ◌≤◌, ◌≡◌, [], length};
ghost use Rattle.buffer.specs.Writing.{Values};
ghost use Rattle.bitmap_picture.specs.Windows.{Holds};
ghost use Rattle.catalogue.specs.Known.{names_in};
ghost use Rattle.bitmap.specs.Reading.{types_read, bitmap_read, types_by, TypeWithin, PlainFirst, Marks};

use bitmap_picture::Picture;
use buffer::Lack;
use catalogue::Catalogue;
use octets::Class;
use tokens::Next;

// The type of the first token, and where its token ends.
fn token_type(c: &Catalogue<'_>, t: &[u8]) -> Result<(u64, usize), Lack>
    requires { length t.now ≤ 1048576 }
    ensures types { types_by (names_in c.now) t.now result ≡ types_read (names_in c.now) t.now }
    ensures within { TypeWithin t.now result }
{
    match tokens::next_token(t, 0) {
        None => Err(Lack::Missing),
        Some(Next::Bare(a, e)) => match rrtype::read::number(c, &t[a..e]) {
            None => Err(Lack::Fault),
            Some(v) => Ok((v, e)),
        },
        Some(_) => Err(Lack::Fault),
    }
}

// The type that `TYPE` and digits at the start make, before a blank or the end, and where it ends: then no token need be
// scanned. It may deny a type that is there.
fn last_type(t: &[u8]) -> Option<(u64, usize)>
    ensures { PlainFirst t.now result }
{
    if t.len() < 4 {
        return None;
    }
    let e = 4 + octets::skip(&t[4..], Class::Digit);
    if !tokens::parted_at(t, e) {
        return None;
    }
    let v = rrtype::read::plain(&t[..e])?;
    Some((v, e))
}

// The same. If there are nine octets, the type is read in one pass.
fn plain_type(t: &[u8]) -> Option<(u64, usize)>
    ensures { PlainFirst t.now result }
{
    if t.len() < 9 {
        return last_type(t);
    }
    let (v, e) = rrtype::read::plain_front(t)?;
    if !tokens::parted_at(t, e) {
        return None;
    }
    Some((v, e))
}

// The first type, and where its token ends; the quick way is tried first.
fn next_type(c: &Catalogue<'_>, t: &[u8]) -> Result<(u64, usize), Lack>
    requires { length t.now ≤ 1048576 }
    ensures types { types_by (names_in c.now) t.now result ≡ types_read (names_in c.now) t.now }
    ensures within { TypeWithin t.now result }
{
    let a = octets::skip(t, Class::Blank);
    match plain_type(&t[a..]) {
        None => token_type(c, t),
        Some((v, e)) => Ok((v, a + e)),
    }
}

// Fills an empty picture with the types of all tokens, if each is a type.
fn fill(picture: &mut Picture, c: &Catalogue<'_>, t: &[u8]) -> bool
    requires short { length t.now ≤ 1048576 }
    requires empty { Holds picture.old.windows picture.old.top [] }
    ensures { Marks picture.new result (types_read (names_in c.now) t.now) }
{
    let mut j = 0;
    loop {
        match next_type(c, &t[j..]) {
            Ok((v, e)) => {
                picture.mark(v);
                j += e;
            }
            Err(Lack::Missing) => {
                return true;
            }
            Err(Lack::Fault) => {
                return false;
            }
        }
    }
}

// Reads the types of all tokens into blocks.
pub fn read(out: &mut [u8], at: usize, c: &Catalogue<'_>, t: &[u8]) -> Option<usize>
    requires room { at < 2 ^ 30 }
    requires short { length t.now ≤ 1048576 }
    ensures { Values out.old out.new at result (bitmap_read (names_in c.now) t.now) }
{
    let mut picture = Picture::empty();
    if !fill(&mut picture, c, t) {
        return None;
    }
    Some(picture.put_blocks(out, at))
}
