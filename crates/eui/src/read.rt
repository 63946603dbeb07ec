// Reads EUI48 and EUI64.
ghost use Rattle.std.specs.Prelude.{◌^◌, ◌<◌, ◌≤◌};
ghost use Rattle.format.specs.Eui.{read_eui};
ghost use Rattle.buffer.specs.Writing.{Values};

use address::part::PartForm;

// Reads exactly w pairs of hex digits with hyphens between them.
pub fn field(out: &mut [u8], at: usize, w: usize, t: &[u8]) -> Option<usize>
    requires place { at < 2 ^ 30 }
    requires count { w ≤ 8 }
    ensures { Values out.old out.new at result (read_eui w t.now) }
{
    PartForm::Pair.parts(out, at, w, t)
}
