// Changes under the slips of a use.
ghost use Rattle.std.specs.Prelude.{◌≡◌, ◌≤◌, length, nat_lt};
ghost use Rattle.store.specs.declared.change.Change.TheVariants.{Remove};
ghost use Rattle.store.specs.Edits.{Edits, page_change};
ghost use Rattle.book.specs.declared.call.Done.TheVariants.{Changed};
ghost use Rattle.book.specs.Uses.{Edited, SameDesk, at_desk, told, told_of};

use super::call::{Denied, Done};
use super::desk::Desk;
use form::Forms;
use medium::Medium;
use store::{Change, Refusal, Slip, Store};

// Makes a change under a slip. What a remove is given as a value is not looked at.
fn apply<M: Medium>(
    store: &mut Store<M>,
    work: &mut [u8],
    slip: &Slip,
    change: Change,
    key: u32,
    value: &[u8],
) -> Result<(), Refusal>
    requires { change ≡ Remove → length value.now ≤ 200 }
    ensures edits { Edits M.Medium.meaning (page_change change key value.now) key slip.now.number (nat_lt 200 (length value.now)) store.old.medium store.new.medium store.old.state store.old.edit store.new.edit work.old work.new result }
    ensures state { store.new.state ≡ store.old.state }
{
    // the store's three calls, each by its name
    match change {
        Change::Put => store.put(work, slip, key, value),
        Change::Replace => store.change(work, slip, key, value),
        Change::Remove => store.remove(work, slip, key),
    }
}

// The bytes of a form's value, put into a buffer.
fn bytes_of<'a, F: Forms>(value: &F, buffer: &'a mut [u8; 200]) -> &'a [u8]
    ensures { result.now ≡ F.Forms.bytes value.now }
{
    let n = value.write(buffer);
    &buffer[..n]
}

impl<'a, M: Medium> Desk<'a, M> {
    // Makes a change under the slip at a place, and tells what it answers.
    pub(super) fn edit<F>(
        &mut self,
        place: usize,
        change: Change,
        key: u32,
        value: &[u8],
    ) -> Result<Done<F>, Denied>
        requires { change ≡ Remove → length value.now ≤ 200 }
        ensures edited { Edited M.Medium.meaning (told (λ _. Changed)) place change key value.now (at_desk self.old) (at_desk self.new) result }
        ensures slips { self.new.slips.now ≡ self.old.slips.now }
        ensures same { SameDesk self.old self.new }
    {
        let slip = self.slips.get(place).ok_or(Denied::NoSlip)?;
        apply(self.store, self.work, slip, change, key, value)?;
        Ok(Done::Changed)
    }

    // Makes a change to a form's value, likewise.
    pub(super) fn edit_form<F: Forms>(
        &mut self,
        place: usize,
        change: Change,
        key: u32,
        value: &F,
    ) -> Result<Done<F>, Denied>
        ensures edited { Edited M.Medium.meaning (told_of key (λ _. Changed)) place change key (F.Forms.bytes value.now) (at_desk self.old) (at_desk self.new) result }
        ensures slips { self.new.slips.now ≡ self.old.slips.now }
        ensures same { SameDesk self.old self.new }
    {
        let slip = self.slips.get(place).ok_or(Denied::NoSlip)?;
        let mut buffer = [0; 200];
        let bytes = bytes_of(value, &mut buffer);
        apply(self.store, self.work, slip, change, key, bytes).map_err(|refusal| Denied::Form {
            key,
            refusal,
        })?;
        Ok(Done::Changed)
    }
}
