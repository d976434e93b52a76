// Looking under a form.
ghost use Rattle.std.specs.Prelude.{◌≡◌};
ghost use Rattle.book.specs.Uses.{LooksUnder, SameDesk, at_desk};

use super::call::{Denied, Done};
use super::desk::Desk;
use form::Forms;
use medium::Medium;
use store::value_at;

impl<'a, M: Medium> Desk<'a, M> {
    // Looks at a key's record and reads it under the form of a kind.
    pub(super) fn look_form<F: Forms>(&mut self, key: u32, of: F::Kind) -> Result<Done<F>, Denied>
        ensures looks { LooksUnder M.Medium.meaning (F.Forms.reads of) key (at_desk self.old) (at_desk self.new) result }
        ensures store { self.new.store.now ≡ self.old.store.now }
        ensures slips { self.new.slips.now ≡ self.old.slips.now }
        ensures same { SameDesk self.old self.new }
    {
        let work = &mut *self.work;
        let place = self
            .store
            .look(work, key)
            .map_err(|refusal| Denied::Form { key, refusal })?;
        let page = self.store.page_of(key).unwrap();
        // tried with `map_err`: the proof takes the bad byte from the match
        match F::read(of, value_at(work, place)) {
            Ok(value) => Ok(Done::Value { value }),
            Err(bad) => Err(Denied::NotOfForm { key, page, bad }),
        }
    }
}
