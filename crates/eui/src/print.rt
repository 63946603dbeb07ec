// Prints EUI48 and EUI64.
ghost use Rattle.std.specs.Prelude.{◌^◌, ◌<◌, ◌≤◌, length};
ghost use Rattle.format.specs.Eui.{eui_text};
ghost use Rattle.buffer.specs.Writing.{Wrote};

use address::part::PartForm;

// Writes two lower-case hex digits for each octet, with hyphens between the octets.
pub fn field(out: &mut [u8], at: usize, p: &[u8]) -> usize
    requires place { at < 2 ^ 30 }
    requires octets { length p.now ≤ 65535 }
    ensures { Wrote out.old out.new at result (eui_text p.now) }
{
    PartForm::Pair.texts(out, at, p)
}
