// One escape inside a token.
ghost use Rattle.std.specs.Prelude.{◌-◌, ◌<◌, ◌≡◌};
ghost use Rattle.format.specs.Lists.{provided};
ghost use Rattle.format.specs.Octets.{digit};
ghost use Rattle.format.specs.Token.{unescaped_from, slash, one_digit};
ghost use Rattle.escape.specs.Escapes.{items_after, Within};

// The value of a decimal digit.
fn digit_value(b: u8) -> Option<u16>
    ensures { result ≡ provided (digit b) (b - 48) }
{
    if b.is_ascii_digit() {
        return Some(u16::from(b - b'0'));
    }
    None
}

// The octet of the escape whose first digit is v and whose other two begin t. None if they are no digits, or the number is
// over 255.
fn decimal(t: &[u8], v: u16) -> Option<(u8, usize)>
    requires { v < 10 }
    ensures items { unescaped_from (one_digit v) t.now ≡ items_after t.now result }
    ensures within { Within t.now result }
{
    if t.len() < 2 {
        return None;
    }
    let x = digit_value(t[0])?;
    let y = digit_value(t[1])?;
    let octet = u8::try_from((v * 10 + x) * 10 + y).ok()?;
    Some((octet, 2))
}

// The octet of the escape whose backslash stands just before t, and how many octets of t it takes.
pub fn read(t: &[u8]) -> Option<(u8, usize)>
    ensures items { unescaped_from slash t.now ≡ items_after t.now result }
    ensures within { Within t.now result }
{
    let b = *t.first()?;
    let Some(x) = digit_value(b) else {
        return Some((b, 1));
    };
    let (octet, n) = decimal(&t[1..], x)?;
    Some((octet, n + 1))
}
