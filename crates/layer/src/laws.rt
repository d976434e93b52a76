// What holds of layers laid on one another.
ghost use Rattle.std.specs.Prelude.{◌≡◌, length, OnOk};
ghost use Rattle.medium.specs.Runs.{ReadsBack};
ghost use Rattle.layer.specs.Holds.{layered};
ghost use Rattle.layer.specs.Windows.{seen};

use super::holding::Holding;
use super::window::Window;
use medium::{Medium, MediumFault};

// What is written through a window onto a holding layer is read back.
pub fn read_back_through<M: Medium>(
    pile: &mut Window<Holding<M>>,
    page: usize,
    at: usize,
    bytes: &[u8],
    out: &mut [u8],
) -> Result<(), MediumFault>
    ensures steps { ReadsBack (seen (layered M.Medium.meaning) pile.old) (seen (layered M.Medium.meaning) pile.new) page at bytes.now out.old out.new result }
    ensures same { OnOk result (length out.old ≡ length bytes.now → out.new ≡ bytes.now) }
{
    pile.write(page, at, bytes)?;
    pile.read(page, at, out)
}
