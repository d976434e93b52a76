// What holds of every medium over several calls.
ghost use Rattle.std.specs.Prelude.{◌≡◌, ℕ, ◌<◌, length, OnOk, ◌≢◌};
ghost use Rattle.octets.specs.Parts.{patched};
ghost use Rattle.medium.specs.Cuts.{LeavesShown};
ghost use Rattle.medium.specs.Runs.{WritesSettled, CutsTwice, ReadsBack};

use super::cut::Cut;
use super::fault::MediumFault;
use super::medium::Medium;

// Writes and settles. Once both are accepted, every cut leaves exactly what is shown.
pub fn write_settled<M: Medium>(
    medium: &mut M,
    page: usize,
    at: usize,
    bytes: &[u8],
) -> Result<(), MediumFault>
    ensures steps { WritesSettled M.Medium.meaning medium.old medium.new page at bytes.now result }
    ensures leaves { OnOk result (LeavesShown (M.Medium.meaning medium.new)) }
    ensures here { OnOk result ((M.Medium.meaning medium.new).shown page ≡ patched ((M.Medium.meaning medium.old).shown page) at bytes.now) }
    ensures others { OnOk result ((q : ℕ) → (q ≢ page) → (M.Medium.meaning medium.new).shown q ≡ (M.Medium.meaning medium.old).shown q) }
{
    medium.write(page, at, bytes)?;
    medium.settle()?; // else the bytes may still be on their way
    Ok(())
}

// Settles and cuts twice. Nothing has changed then.
pub fn cut_twice<M: Cut>(medium: &mut M) -> Result<(), MediumFault>
    ensures steps { CutsTwice M.Medium.meaning M.Cut.cuts medium.old medium.new result }
    ensures unchanged { OnOk result ((p : ℕ) → p < (M.Medium.meaning medium.old).pages → (M.Medium.meaning medium.new).shown p ≡ (M.Medium.meaning medium.old).shown p) }
{
    medium.settle()?; // else a cut may leave what was there before
    medium.cut();
    medium.cut(); // and what is left
    Ok(())
}

// Writes and reads what was written: it is the same.
pub fn read_back<M: Medium>(
    medium: &mut M,
    page: usize,
    at: usize,
    bytes: &[u8],
    out: &mut [u8],
) -> Result<(), MediumFault>
    ensures steps { ReadsBack (M.Medium.meaning medium.old) (M.Medium.meaning medium.new) page at bytes.now out.old out.new result }
    ensures same { OnOk result (length out.old ≡ length bytes.now → out.new ≡ bytes.now) }
{
    medium.write(page, at, bytes)?;
    medium.read(page, at, out)?;
    Ok(())
}
