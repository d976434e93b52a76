// Making one call of a use.
ghost use Rattle.std.specs.Prelude.{◌≡◌, ◌+◌, ◌<◌, ◌≤◌, vec_len, vec_capacity};
ghost use Rattle.book.specs.Uses.{Makes, SameDesk, at_desk};

use super::call::{Call, Denied, Done};
use super::desk::Desk;
use form::Forms;
use medium::Medium;
use store::Change;

impl<'a, M: Medium> Desk<'a, M> {
    // Makes a call, and tells what it answers.
    pub(super) fn make<F: Forms>(&mut self, call: &Call<F, F::Kind>) -> Result<Done<F>, Denied>
        requires { vec_len self.old.slips.now.given < vec_capacity self.old.slips.now.given }
        ensures makes { Makes M.Medium.meaning F.Forms.bytes F.Forms.reads call.now result (at_desk self.old) (at_desk self.new) }
        ensures room { (vec_capacity self.new.slips.now.given ≡ vec_capacity self.old.slips.now.given) × (vec_len self.new.slips.now.given ≤ vec_len self.old.slips.now.given + 1) }
        ensures same { SameDesk self.old self.new }
    {
        match call {
            Call::Open => {
                let opened = self.store.open(self.work)?;
                Ok(Done::Opened { opened })
            }
            Call::Begin => {
                let slip = self.store.begin()?;
                let number = slip.number();
                let slip = self.slips.add(slip);
                Ok(Done::Begun { slip, number })
            }
            Call::Put { slip, key, value } => self.edit(*slip, Change::Put, *key, value),
            Call::Change { slip, key, value } => self.edit(*slip, Change::Replace, *key, value),
            Call::Remove { slip, key } => self.edit(*slip, Change::Remove, *key, &[]),
            Call::Look { key } => {
                let place = self.store.look(self.work, *key)?;
                Ok(Done::Looked { place })
            }
            Call::Next { least } => {
                let key = self.store.next(self.work, *least)?;
                Ok(Done::Key { key })
            }
            Call::Save { slip } => {
                let slip = self.slips.take(*slip).ok_or(Denied::NoSlip)?;
                let (counter, changes) = self.store.save(slip)?;
                Ok(Done::Saved { counter, changes })
            }
            Call::Abandon { slip } => {
                let slip = self.slips.take(*slip).ok_or(Denied::NoSlip)?;
                self.store.abandon(slip)?;
                Ok(Done::Abandoned)
            }
            Call::PutForm { slip, key, value } => self.edit_form(*slip, Change::Put, *key, value),
            Call::ChangeForm { slip, key, value } => {
                self.edit_form(*slip, Change::Replace, *key, value)
            }
            Call::LookForm { key, kind } => self.look_form(*key, *kind),
        }
    }
}
