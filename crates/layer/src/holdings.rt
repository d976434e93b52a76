// What a holding layer does.
ghost use Rattle.std.specs.Prelude.{◌≡◌, ◌<◌, true, [], length, None, OnOk, nat_lt};
ghost use Rattle.medium.specs.Cuts.{CutMedium};
ghost use Rattle.medium.specs.Meaning.{Settled, Wrote, good};
ghost use Rattle.layer.specs.Below.{Drains, Evicts, Flushed, HoldingCuts, Landed, Lowers, MadeRoom, Puts};
ghost use Rattle.layer.specs.Distinct.{look};
ghost use Rattle.layer.specs.Holds.{Placed, Runs, holds_sized, image_of, images, layered, over_shows};

use super::held::{Held, drop_all, drop_first};
use super::holding::Holding;
use arrayvec::ArrayVec;
use medium::{Cut, Medium, MediumFault};
use octets::patch;

impl<M: Medium> Holding<M> {
    // A medium with nothing held over it.
    pub fn new(medium: M) -> Holding<M>
        ensures { (result.medium ≡ medium) × (images result ≡ []) }
    {
        Holding {
            medium,
            held: ArrayVec::new(),
        }
    }

    // The medium below again. What is still held is lost.
    pub fn into_medium(self) -> M
        ensures { result ≡ self.medium }
    {
        let Holding { medium, held: _ } = self;
        medium
    }

    // Where a page is held.
    #[inline]
    fn find(&self, page: usize) -> Option<usize>
        ensures { Placed (images self.now) page result }
    {
        self.held.iter().position(|h| h.page == page)
    }

    // Image i goes below, and is held still.
    fn lower(&mut self, i: usize) -> Result<(), MediumFault>
        requires some { i < length (images self.old) }
        requires runs { Runs M.Medium.meaning self.old }
        ensures held { images self.new ≡ images self.old }
        ensures lowers { Lowers M.Medium.meaning (images self.old) i self.old.medium self.new.medium result }
    {
        let held = &self.held[i];
        if held.page < self.medium.pages() {
            self.medium.write(held.page, 0, &held.image)?;
        }
        Ok(())
    }

    // The image that is held longest goes below.
    fn evict(&mut self) -> Result<(), MediumFault>
        requires some { 0 < length (images self.old) }
        requires runs { Runs M.Medium.meaning self.old }
        ensures { Evicts M.Medium.meaning (images self.old) self.old.medium (images self.new) self.new.medium result }
    {
        self.lower(0)?;
        drop_first(&mut self.held, 1);
        Ok(())
    }

    // All images go below, the one held longest first. What went below is dropped in the end, so that the others move once.
    fn flush(&mut self) -> Result<(), MediumFault>
        requires { Runs M.Medium.meaning self.old }
        ensures { Flushed M.Medium.meaning (images self.old) self.old.medium (images self.new) self.new.medium result }
    {
        for i in 0..self.held.len() {
            if let Err(fault) = self.lower(i) {
                drop_first(&mut self.held, i);
                return Err(fault);
            }
        }
        drop_all(&mut self.held);
        Ok(())
    }

    // Settles the medium below.
    fn settle_below(&mut self) -> Result<(), MediumFault>
        ensures held { images self.new ≡ images self.old }
        ensures settled { Settled (M.Medium.meaning self.old.medium) (M.Medium.meaning self.new.medium) result }
    {
        self.medium.settle()
    }

    // Where eight images are held, one goes below.
    fn make_room(&mut self) -> Result<(), MediumFault>
        requires { Runs M.Medium.meaning self.old }
        ensures made { MadeRoom M.Medium.meaning (nat_lt (length (images self.old)) 8) (images self.old) self.old.medium (images self.new) self.new.medium result }
        ensures room { OnOk result (length (images self.new) < 8) }
    {
        if self.held.len() < 8 {
            Ok(())
        } else {
            self.evict()
        }
    }

    // Holds a page that is not held yet, with a run put in. It is fetched before another goes below.
    #[inline(never)]
    fn hold(&mut self, page: usize, at: usize, bytes: &[u8]) -> Result<(), MediumFault>
        requires good { good (M.Medium.meaning self.old.medium).pages page at (length bytes.now) ≡ true }
        requires runs { Runs M.Medium.meaning self.old }
        requires new { look (images self.old) page ≡ None }
        ensures { Puts M.Medium.meaning (images self.old) self.old.medium (images self.new) self.new.medium page at bytes.now result }
    {
        let mut image = [0; 1024];
        self.medium.read(page, 0, &mut image)?;
        self.make_room()?;
        patch(&mut image, at, bytes);
        self.held.push(Held { page, image });
        Ok(())
    }
}

impl<M: Medium> Medium for Holding<M> {
    ghost meaning = { λ l. layered M.Medium.meaning l };

    ghost sized = { λ l. holds_sized (M.Medium.meaning l.medium) (images l) (M.Medium.sized l.medium) };

    ghost shows = { λ l. over_shows (M.Medium.meaning l.medium) (image_of (M.Medium.meaning l.medium) (images l)) (M.Medium.shows l.medium) };

    fn pages(&self) -> usize {
        self.medium.pages()
    }

    fn stopped(&self) -> bool {
        self.medium.stopped()
    }

    #[inline]
    fn read(&self, page: usize, at: usize, out: &mut [u8]) -> Result<(), MediumFault> {
        self.admit(page, at, out.len())?;
        match self.find(page) {
            Some(i) => {
                self.held[i].copy(at, out);
                Ok(())
            }
            None => self.medium.read(page, at, out),
        }
    }

    #[inline]
    fn write(&mut self, page: usize, at: usize, bytes: &[u8]) -> Result<(), MediumFault>
        ensures wrote { Wrote (layered M.Medium.meaning self.old) (layered M.Medium.meaning self.new) page at bytes.now result }
        ensures below { Puts M.Medium.meaning (images self.old) self.old.medium (images self.new) self.new.medium page at bytes.now result }
    {
        self.admit(page, at, bytes.len())?;
        match self.find(page) {
            Some(i) => {
                self.held[i].patch(at, bytes);
                Ok(())
            }
            None => self.hold(page, at, bytes),
        }
    }

    fn settle(&mut self) -> Result<(), MediumFault>
        ensures settled { Settled (layered M.Medium.meaning self.old) (layered M.Medium.meaning self.new) result }
        ensures below { Drains M.Medium.meaning (images self.old) self.old.medium (images self.new) self.new.medium result }
        ensures landed { OnOk result (Landed (layered M.Medium.meaning self.old) (M.Medium.meaning self.new.medium)) }
    {
        if self.medium.stopped() {
            return Err(MediumFault::Stopped);
        }
        self.flush()?;
        self.settle_below()
    }
}

impl<M: Cut> Cut for Holding<M> {
    ghost cuts = { λ a b. HoldingCuts M.Medium.meaning M.Cut.cuts a b };

    // What is held is lost, and the medium below is cut.
    fn cut(&mut self)
        ensures cut { CutMedium (layered M.Medium.meaning self.old) (layered M.Medium.meaning self.new) }
        ensures lost { images self.new ≡ [] }
        ensures below { CutMedium (M.Medium.meaning self.old.medium) (M.Medium.meaning self.new.medium) }
        ensures exactly { HoldingCuts M.Medium.meaning M.Cut.cuts self.old self.new }
    {
        self.held.clear();
        self.medium.cut();
    }
}
