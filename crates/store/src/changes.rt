// The changes of an edit.
ghost use Rattle.std.specs.Prelude.{◌≡◌, false, length, nat_lt};
ghost use Rattle.draft.specs.Images.{ChangedPage, PutPage, RemovedPage};
ghost use Rattle.store.specs.Edits.{Edits, page_change};

use super::access::load;
use super::change::Change;
use super::refusal::Refusal;
use super::slip::Slip;
use super::store::Store;
use draft::{Draft, PageRefusal, Value};
use medium::Medium;

impl Change {
    // Makes the change on a page in memory. A remove has no value.
    fn apply(
        self,
        draft: Draft,
        page: &mut [u8; 1024],
        key: u32,
        value: Value<'_>,
    ) -> Result<(), PageRefusal>
        ensures { page_change self key value.entry.bytes.now draft.counter page.old page.new result }
    {
        match self {
            Change::Put => draft.put(page, key, value),
            Change::Replace => draft.change(page, key, value),
            Change::Remove => draft.remove(page, key),
        }
    }
}

impl<M: Medium> Store<M> {
    // Makes a change under a slip: reads the key's page, changes it in the work page, and writes it.
    pub(super) fn edit(
        &mut self,
        work: &mut [u8],
        slip: &Slip,
        change: Change,
        key: u32,
        value: &[u8],
    ) -> Result<(), Refusal>
        ensures edits { Edits M.Medium.meaning (page_change change key value.now) key slip.now.number (nat_lt 200 (length value.now)) self.old.medium self.new.medium self.old.state self.old.edit self.new.edit work.old work.new result }
        ensures state { self.new.state ≡ self.old.state }
    {
        // tried with `ok_or`: past it the proof has to find again that the page is all of `work`
        let Some(page) = work.as_mut_array::<1024>() else {
            return Err(Refusal::WorkPage);
        };
        let first = self.ready(slip, value.len() > 200)?;
        let q = first.page_of(key);
        load(&self.medium, q, page)?;
        let draft = Draft {
            counter: first.counter,
        };
        change.apply(draft, page, key, Value { bytes: value })?;
        self.offer(q, page)
    }

    // Adds a key and its value.
    pub fn put(
        &mut self,
        work: &mut [u8],
        slip: &Slip,
        key: u32,
        value: &[u8],
    ) -> Result<(), Refusal>
        ensures edits { Edits M.Medium.meaning (λ counter page new x. PutPage counter page new key value.now x) key slip.now.number (nat_lt 200 (length value.now)) self.old.medium self.new.medium self.old.state self.old.edit self.new.edit work.old work.new result }
        ensures state { self.new.state ≡ self.old.state }
    {
        self.edit(work, slip, Change::Put, key, value)
    }

    // Replaces a key's value.
    pub fn change(
        &mut self,
        work: &mut [u8],
        slip: &Slip,
        key: u32,
        value: &[u8],
    ) -> Result<(), Refusal>
        ensures edits { Edits M.Medium.meaning (λ counter page new x. ChangedPage counter page new key value.now x) key slip.now.number (nat_lt 200 (length value.now)) self.old.medium self.new.medium self.old.state self.old.edit self.new.edit work.old work.new result }
        ensures state { self.new.state ≡ self.old.state }
    {
        self.edit(work, slip, Change::Replace, key, value)
    }

    // Takes a key out.
    pub fn remove(&mut self, work: &mut [u8], slip: &Slip, key: u32) -> Result<(), Refusal>
        ensures edits { Edits M.Medium.meaning (λ counter page new x. RemovedPage counter page new key x) key slip.now.number false self.old.medium self.new.medium self.old.state self.old.edit self.new.edit work.old work.new result }
        ensures state { self.new.state ≡ self.old.state }
    {
        self.edit(work, slip, Change::Remove, key, &[])
    }
}
