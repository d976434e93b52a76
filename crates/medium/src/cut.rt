// What a cut leaves.
ghost use Rattle.std.specs.Prelude.{◌≡◌, false};
ghost use Rattle.medium.specs.Cuts.{CutMedium};
ghost use Rattle.medium.specs.Flat.{flat};
ghost use Rattle.medium.specs.Trials.{TrialCuts};

use super::medium::Medium;
use super::memory::Memory;
use super::trial::Trial;

// A medium that can be cut, as by the switch at the wall: what was on its way may have come down or not.
pub trait Cut: Medium {
    // What exactly a cut does to it: the rule alone holds of a settled medium that is not cut at all, too.
    ghost cuts: { Self → Self → Type 0 };

    // Cuts the medium. It runs again, and of each word there is one of those that were possible.
    fn cut(&mut self)
        ensures rule { CutMedium (Self.Medium.meaning self.old) (Self.Medium.meaning self.new) }
        ensures exactly { cuts self.old self.new };
}

impl Cut for Memory<'_> {
    ghost cuts = { λ a b. b.bytes.now ≡ a.bytes.now };

    // Nothing was on its way.
    fn cut(&mut self)
        ensures rule { CutMedium (flat false self.old.bytes.now) (flat false self.new.bytes.now) }
        ensures exactly { self.new.bytes.now ≡ self.old.bytes.now }
    {
        // the bytes are all there is
    }
}

impl Cut for Trial<'_> {
    ghost cuts = { λ a b. TrialCuts a b };

    // It does not stop again.
    fn cut(&mut self)
        ensures rule { CutMedium (flat self.old.stopped self.old.bytes.now) (flat self.new.stopped self.new.bytes.now) }
        ensures exactly { (self.new.bytes.now ≡ self.old.bytes.now) × (self.new.left ≡ 0) }
        ensures cuts { TrialCuts self.old self.new }
    {
        self.stopped = false;
        self.left = 0;
    }
}
