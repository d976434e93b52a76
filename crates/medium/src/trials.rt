// The trial medium as a medium.
ghost use Rattle.std.specs.Prelude.{◌≡◌, ◌+◌, ◌%◌, ◌≤◌, false, length, MatchBool};
ghost use Rattle.medium.specs.Flat.{flat, flat_sized, flat_shows};
ghost use Rattle.medium.specs.Meaning.{Wrote, Settled};
ghost use Rattle.medium.specs.Trials.{Partly, Counted, CountsNoMore, StopsNow, TrialWrote, TrialSettled};

use super::copy::copy_run;
use super::fault::MediumFault;
use super::medium::Medium;
use super::trial::Trial;
use octets::patch;

impl<'a> Trial<'a> {
    // The medium of these bytes; it stops in call `stop`, or never if that is 0.
    pub fn new(bytes: &'a mut [u8], stop: u32, pattern: u64) -> Trial<'a>
        ensures { (result.bytes.now ≡ bytes.old) × (result.left ≡ stop) × (result.pattern ≡ pattern) × (result.stopped ≡ false) }
    {
        Trial {
            bytes,
            left: stop,
            pattern,
            stopped: false,
        }
    }

    // The bytes again, as they are now.
    pub fn into_bytes(self) -> &'a mut [u8]
        ensures { result.now ≡ self.entry.bytes.now }
    {
        let Trial {
            bytes,
            left: _,
            pattern: _,
            stopped: _,
        } = self;
        bytes
    }

    // Counts a call, and says whether the medium stops in it.
    fn stops_now(&mut self) -> bool
        requires { self.old.stopped ≡ false }
        ensures counts { MatchBool result (StopsNow self.old self.new) (Counted self.old self.new) }
        ensures keeps { (self.new.bytes.now ≡ self.old.bytes.now) × (self.new.pattern ≡ self.old.pattern) }
        ensures ends { CountsNoMore self.old self.new }
    {
        self.stopped = self.left == 1;
        self.left = self.left.saturating_sub(1);
        self.stopped
    }
}

// Puts the words of a run whose bit of the pattern stands.
fn patch_partly(bytes: &mut [u8], start: usize, run: &[u8], pattern: u64)
    requires { (start + length run.now ≤ length bytes.old) × (length run.now % 4 ≡ 0) }
    ensures { Partly pattern start run.now bytes.old bytes.new }
{
    for (k, word) in run.chunks_exact(4).enumerate() {
        if (pattern >> (k % 64)) % 2 == 1 {
            patch(bytes, start + 4 * k, word);
        }
    }
}

impl Medium for Trial<'_> {
    ghost meaning = { λ m. flat m.stopped m.bytes.now };

    ghost sized = { λ m. flat_sized m.stopped m.bytes.now };

    ghost shows = { λ m. flat_shows m.stopped m.bytes.now };

    fn pages(&self) -> usize {
        self.bytes.len() / 1024
    }

    fn stopped(&self) -> bool {
        self.stopped // until a cut
    }

    fn read(&self, page: usize, at: usize, out: &mut [u8]) -> Result<(), MediumFault> {
        self.admit(page, at, out.len())?;
        copy_run(self.bytes, page, at, out);
        Ok(())
    }

    fn write(&mut self, page: usize, at: usize, bytes: &[u8]) -> Result<(), MediumFault>
        ensures rule { Wrote (flat self.old.stopped self.old.bytes.now) (flat self.new.stopped self.new.bytes.now) page at bytes.now result }
        ensures exactly { TrialWrote self.old self.new page at bytes.now result }
        ensures ends { CountsNoMore self.old self.new }
    {
        self.admit(page, at, bytes.len())?;
        let start = page * 1024 + at;
        if self.stops_now() {
            let pattern = self.pattern;
            patch_partly(self.bytes, start, bytes, pattern);
            return Err(MediumFault::Stopped);
        }
        patch(self.bytes, start, bytes);
        Ok(())
    }

    fn settle(&mut self) -> Result<(), MediumFault>
        ensures rule { Settled (flat self.old.stopped self.old.bytes.now) (flat self.new.stopped self.new.bytes.now) result }
        ensures exactly { TrialSettled self.old self.new result }
        ensures ends { CountsNoMore self.old self.new }
    {
        if self.stopped || self.stops_now() {
            return Err(MediumFault::Stopped);
        }
        Ok(())
    }
}
