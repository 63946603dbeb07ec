// Takes one field off the wire, jumping by the lengths that it gives.
#![tactic(auto)]

ghost use Rattle.std.specs.Prelude.{◌-◌, ◌≤◌, ◌≡◌, false, List};
ghost use Rattle.format.specs.Wire.{taken, count, label_length, to_the_end, string_count, window};
ghost use Rattle.format.specs.Field.{Symbol, any_octets, start};
ghost use Rattle.stanza_form.specs.Forms.{kind_of};
ghost use Rattle.field_wire.specs.Wire.{taken_in};

use buffer::Lack;
use stanza_form::{Form, Shape};

// Takes w octets of any value, which need not be looked at.
fn octets(p: &[u8], w: usize) -> Result<usize, Lack>
    requires { 1 ≤ w }
    ensures { taken_in result ≡ taken (any_octets w) p.now }
{
    if p.len() < w {
        return Err(Lack::Missing);
    }
    Ok(w)
}

// Takes all octets, at least one.
fn rest(p: &[u8]) -> Result<usize, Lack>
    ensures { taken_in result ≡ taken (to_the_end false) p.now }
{
    if p.is_empty() {
        return Err(Lack::Missing);
    }
    Ok(p.len())
}

// Takes a count of at least lo, and as many octets.
fn counted(p: &[u8], lo: u8) -> Result<usize, Lack>
    ensures { taken_in result ≡ taken (count lo) p.now }
{
    if p.is_empty() {
        return Err(Lack::Missing);
    }
    if p[0] < lo {
        return Err(Lack::Fault);
    }
    let n = usize::from(p[0]);
    if p.len() <= n {
        return Err(Lack::Missing);
    }
    Ok(1 + n)
}

// Takes a name: labels, each after its length, and the closing zero; or nothing, if it is optional.
pub fn name(p: &[u8], optional: bool) -> Result<usize, Lack>
    ensures { taken_in result ≡ taken (label_length optional 0) p.now }
{
    if p.is_empty() {
        return if optional { Ok(0) } else { Err(Lack::Missing) };
    }
    let mut j = 0;
    while j < p.len() {
        let n = usize::from(p[j]);
        if n == 0 {
            return Ok(j + 1);
        }
        if 63 < n || 255 < j + 1 + n + 1 {
            return Err(Lack::Fault);
        }
        if p.len() - j <= n {
            return Err(Lack::Missing);
        }
        j += 1 + n;
    }
    Err(Lack::Missing)
}

// Takes counted strings to the end, at least one.
fn strings(p: &[u8]) -> Result<usize, Lack>
    ensures { taken_in result ≡ taken (string_count false) p.now }
{
    if p.is_empty() {
        return Err(Lack::Missing);
    }
    let mut j = 0;
    while j < p.len() {
        let n = usize::from(p[j]);
        if p.len() - j <= n {
            return Err(Lack::Missing);
        }
        j += 1 + n;
    }
    Ok(j)
}

// Takes blocks to the end: a window higher than those before, a count of 1 to 32, and octets of which the last is not zero.
fn bitmap(p: &[u8]) -> Result<usize, Lack>
    ensures { taken_in result ≡ taken (window 0) p.now }
{
    let mut lo = 0;
    let mut j = 0;
    while j < p.len() {
        let w = usize::from(p[j]);
        if w < lo {
            return Err(Lack::Fault);
        }
        if p.len() - j < 2 {
            return Err(Lack::Missing);
        }
        let n = usize::from(p[j + 1]);
        if n < 1 || 32 < n {
            return Err(Lack::Fault);
        }
        if p.len() - j < 2 + n {
            return Err(Lack::Missing);
        }
        if p[j + 1 + n] == 0 {
            return Err(Lack::Fault);
        }
        lo = w + 1;
        j += 2 + n;
    }
    Ok(j)
}

// The number of octets of an integer or an EUI; 1 if it is 0.
fn width(w: u8) -> usize
    ensures at_least { 1 ≤ result }
    ensures same { result - 1 ≡ w - 1 }
{
    usize::from(w).max(1)
}

// Takes a field of the form f, by its shape, off the octets that are left: how many it takes, or why there is none.
pub fn take_field(f: Form, p: &[u8]) -> Result<usize, Lack>
    ensures { (l : List Symbol) → taken_in result ≡ taken (start (kind_of l f)) p.now }
{
    let y = stanza_form::layout_of(f);
    let a = y.parameter;
    match y.shape {
        Shape::Octets => octets(p, width(a)),
        Shape::Labels => name(p, stanza_form::is_optional(a)),
        Shape::Counted => counted(p, a),
        Shape::Strings => strings(p),
        Shape::Rest => rest(p),
        Shape::Windows => bitmap(p),
    }
}
