// A medium over lent bytes.
ghost use Rattle.std.specs.Prelude.{◌≡◌, ◌+◌, ◌*◌, false, Ok, MatchResult};
ghost use Rattle.octets.specs.Parts.{patched};
ghost use Rattle.medium.specs.declared.fault.MediumFault.TheVariants.{BadRun};
ghost use Rattle.medium.specs.Flat.{flat, flat_sized, flat_shows};
ghost use Rattle.medium.specs.Meaning.{Settled, Wrote};

use super::copy::copy_run;
use super::fault::MediumFault;
use super::medium::Medium;
use octets::patch;

// The bytes as pages; what is left over is never touched. It never stops, and only what it shows can be left of it.
pub struct Memory<'a> {
    bytes: &'a mut [u8],
}

impl<'a> Memory<'a> {
    // The medium of these bytes.
    pub fn new(bytes: &'a mut [u8]) -> Memory<'a>
        ensures { result.bytes.now ≡ bytes.old }
    {
        Memory { bytes }
    }

    // The bytes again, as they are now.
    pub fn into_bytes(self) -> &'a mut [u8]
        ensures { result.now ≡ self.entry.bytes.now }
    {
        let Memory { bytes: lent } = self;
        lent
    }
}

impl Medium for Memory<'_> {
    ghost meaning = { λ m. flat false m.bytes.now };

    ghost sized = { λ m. flat_sized false m.bytes.now };

    ghost shows = { λ m. flat_shows false m.bytes.now };

    fn pages(&self) -> usize {
        self.bytes.len() / 1024
    }

    fn stopped(&self) -> bool {
        false
    }

    fn read(&self, page: usize, at: usize, out: &mut [u8]) -> Result<(), MediumFault> {
        self.admit(page, at, out.len())?;
        copy_run(self.bytes, page, at, out);
        Ok(())
    }

    fn write(&mut self, page: usize, at: usize, bytes: &[u8]) -> Result<(), MediumFault>
        ensures rule { Wrote (flat false self.old.bytes.now) (flat false self.new.bytes.now) page at bytes.now result }
        ensures exactly { MatchResult result (λ _. self.new.bytes.now ≡ patched self.old.bytes.now (page * 1024 + at) bytes.now) (λ e. (e ≡ BadRun) × (self.new.bytes.now ≡ self.old.bytes.now)) }
    {
        self.admit(page, at, bytes.len())?;
        patch(self.bytes, page * 1024 + at, bytes);
        Ok(())
    }

    fn settle(&mut self) -> Result<(), MediumFault>
        ensures rule { Settled (flat false self.old.bytes.now) (flat false self.new.bytes.now) result }
        ensures exactly { (result ≡ Ok tt) × (self.new.bytes.now ≡ self.old.bytes.now) }
    {
        // nothing is ever on its way
        Ok(())
    }
}
