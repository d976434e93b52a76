// Adding to the touched pages.
ghost use Rattle.std.specs.Prelude.{◌≡◌, ◌<◌, []};
ghost use Rattle.arrayvec.specs.ArrayVec.{array_vec_len};
ghost use Rattle.store.specs.Touches.{added};

use super::touched::Touched;
use arrayvec::ArrayVec;

impl Touched {
    // No pages.
    pub(super) fn new() -> Touched
        ensures { result.pages.items ≡ [] }
    {
        Touched {
            pages: ArrayVec::new(),
        }
    }

    // Adds a page unless it is there.
    pub(super) fn add(&mut self, page: usize)
        requires { array_vec_len self.old.pages < 64 }
        ensures { self.new.pages.items ≡ added page self.old.pages.items }
    {
        if let Err(at) = self.pages.binary_search(&page) {
            self.pages.insert(at, page);
        }
    }
}
