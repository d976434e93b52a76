// What a medium is.
ghost use Rattle.std.specs.Prelude.{◌≡◌, length};
ghost use Rattle.medium.specs.Meaning.{Meaning, Sized, Shows, Admits, Read, Wrote, Settled, good};

use super::fault::MediumFault;

// A fixed count of pages of 1,024 bytes, read and written in runs of whole words of four bytes. What was written may still be
// on its way until the medium is settled: its meaning says what a cut may leave of each word.
pub trait Medium {
    ghost meaning: { Self → Meaning };

    // Every page has 1,024 bytes.
    ghost sized: { (m : Self) → Sized (meaning m) };

    // While the medium runs, what is shown of a word is among what a cut may leave of it.
    ghost shows: { (m : Self) → Shows (meaning m) };

    // How many pages there are.
    fn pages(&self) -> usize
        ensures { result ≡ (meaning self.now).pages };

    // Whether it has stopped.
    fn stopped(&self) -> bool
        ensures { result ≡ (meaning self.now).stopped };

    // Refuses a run that is not good, and then every run once the medium has stopped.
    fn admit(&self, page: usize, at: usize, len: usize) -> Result<(), MediumFault>
        ensures { Admits (meaning self.now) page at len result }
    {
        if !good_run(self.pages(), page, at, len) {
            return Err(MediumFault::BadRun);
        }
        if self.stopped() {
            return Err(MediumFault::Stopped);
        }
        Ok(())
    }

    // Copies the bytes of a page from byte `at` on into `out`.
    fn read(&self, page: usize, at: usize, out: &mut [u8]) -> Result<(), MediumFault>
        ensures { Read (meaning self.now) page at out.old out.new result };

    // Puts bytes in place of those of a page from byte `at` on.
    fn write(&mut self, page: usize, at: usize, bytes: &[u8]) -> Result<(), MediumFault>
        ensures { Wrote (meaning self.old) (meaning self.new) page at bytes.now result };

    // Brings all that is on its way down.
    fn settle(&mut self) -> Result<(), MediumFault>
        ensures { Settled (meaning self.old) (meaning self.new) result };
}

// Whether a run of whole words lies in a page of a medium of so many pages.
pub fn good_run(pages: usize, page: usize, at: usize, len: usize) -> bool
    ensures { result ≡ good pages page at len }
{
    page < pages && 0 < len && at % 4 == 0 && len % 4 == 0 && at <= 1024 && len <= 1024 - at
}
