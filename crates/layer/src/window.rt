// Some of the pages of a medium.
ghost use Rattle.std.specs.Prelude.{◌≡◌, ◌+◌, ◌^◌, ◌<◌};
ghost use Rattle.medium.specs.Cuts.{CutMedium};
ghost use Rattle.medium.specs.Meaning.{Settled, Wrote};
ghost use Rattle.layer.specs.Windows.{LiesBelow, PassedOn, SamePlace, WindowCuts, seen, windowed_sized, windowed_shows};

use medium::{Cut, Medium, MediumFault, good_run};

// The pages of a medium from page `first` on, at most `count`.
pub struct Window<M> {
    medium: M,
    first: usize,
    count: usize,
}

impl<M: Medium> Window<M> {
    // A window onto a medium.
    pub fn new(medium: M, first: usize, count: usize) -> Window<M>
        ensures { (result.medium ≡ medium) × (result.first ≡ first) × (result.count ≡ count) }
    {
        Window {
            medium,
            first,
            count,
        }
    }

    // The medium below again.
    pub fn into_medium(self) -> M
        ensures { result ≡ self.medium }
    {
        let Window {
            medium,
            first: _,
            count: _,
        } = self;
        medium
    }

    // The page below that a good run lies on. A bad run does not come down; whether the medium has stopped is asked there, so
    // this is no `admit`.
    fn below(&self, page: usize, at: usize, len: usize) -> Result<usize, MediumFault>
        ensures { LiesBelow (seen M.Medium.meaning self.now) self.now.first page at len result }
    {
        if !good_run(self.pages(), page, at, len) {
            return Err(MediumFault::BadRun);
        }
        Ok(self.first + page)
    }
}

impl<M: Medium> Medium for Window<M> {
    ghost meaning = { λ w. seen M.Medium.meaning w };

    ghost sized = { λ w. windowed_sized (M.Medium.meaning w.medium) w.first w.count (M.Medium.sized w.medium) };

    ghost shows = { λ w. windowed_shows (M.Medium.meaning w.medium) w.first w.count (M.Medium.shows w.medium) };

    fn pages(&self) -> usize
        ensures count { result ≡ (seen M.Medium.meaning self.now).pages }
        ensures fits { 0 < result → self.now.first + result < 2 ^ 64 }
    {
        self.count
            .min(self.medium.pages().saturating_sub(self.first))
    }

    fn stopped(&self) -> bool {
        self.medium.stopped()
    }

    fn read(&self, page: usize, at: usize, out: &mut [u8]) -> Result<(), MediumFault> {
        let below = self.below(page, at, out.len())?;
        self.medium.read(below, at, out)
    }

    // A good run is written below, at the same byte of page `first + page`. A bad run does not come down.
    fn write(&mut self, page: usize, at: usize, bytes: &[u8]) -> Result<(), MediumFault>
        ensures wrote { Wrote (seen M.Medium.meaning self.old) (seen M.Medium.meaning self.new) page at bytes.now result }
        ensures below { PassedOn M.Medium.meaning self.old self.new page at bytes.now result }
    {
        let below = self.below(page, at, bytes.len())?;
        self.medium.write(below, at, bytes)
    }

    // The medium below is settled.
    fn settle(&mut self) -> Result<(), MediumFault>
        ensures settled { Settled (seen M.Medium.meaning self.old) (seen M.Medium.meaning self.new) result }
        ensures place { SamePlace self.old self.new }
        ensures below { Settled (M.Medium.meaning self.old.medium) (M.Medium.meaning self.new.medium) result }
    {
        self.medium.settle()
    }
}

impl<M: Cut> Cut for Window<M> {
    ghost cuts = { λ v w. WindowCuts M.Medium.meaning M.Cut.cuts v w };

    // The medium below is cut, all of it.
    fn cut(&mut self)
        ensures cut { CutMedium (seen M.Medium.meaning self.old) (seen M.Medium.meaning self.new) }
        ensures below { WindowCuts M.Medium.meaning M.Cut.cuts self.old self.new }
    {
        self.medium.cut();
    }
}
