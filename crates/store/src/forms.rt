// Calls under a record form: a record's value in place of its bytes.
ghost use Rattle.std.specs.Prelude.{◌≡◌};
ghost use Rattle.draft.specs.Images.{ChangedPage, PutPage};
ghost use Rattle.store.specs.Edits.{page_change};
ghost use Rattle.store.specs.Forms.{EditsForm, LooksForm, of_form, under_key};

use super::change::Change;
use super::formrefusal::FormRefusal;
use super::looks::value_at;
use super::refusal::Refusal;
use super::slip::Slip;
use super::store::Store;
use form::{BadByte, RecordForm};
use medium::Medium;

// A store's answer, its refusal with the key.
fn under<T>(answer: Result<T, Refusal>, key: u32) -> Result<T, FormRefusal>
    ensures { result ≡ under_key key answer }
{
    answer.map_err(|refusal| FormRefusal::Store { key, refusal })
}

// What a form read, its bad byte with the key and the page.
fn of_form<T>(answer: Result<T, BadByte>, key: u32, page: usize) -> Result<T, FormRefusal>
    ensures { result ≡ of_form key page answer }
{
    answer.map_err(|bad| FormRefusal::NotOfForm {
        key,
        page,
        byte: bad.at,
    })
}

impl<M: Medium> Store<M> {
    // Makes a change with a value in place of its bytes. No form writes above 200 bytes, so the room suffices.
    fn edit_form<F: RecordForm>(
        &mut self,
        work: &mut [u8],
        slip: &Slip,
        change: Change,
        key: u32,
        value: &F,
    ) -> Result<(), FormRefusal>
        ensures edits { EditsForm M.Medium.meaning (λ bytes. page_change change key bytes) (F.RecordForm.bytes value.now) key slip.now.number self.old.medium self.new.medium self.old.state self.old.edit self.new.edit work.old work.new result }
        ensures state { self.new.state ≡ self.old.state }
    {
        let mut bytes = [0; 200];
        let n = value.write(&mut bytes);
        under(self.edit(work, slip, change, key, &bytes[..n]), key)
    }

    // Adds a key and its value.
    pub fn put_form<F: RecordForm>(
        &mut self,
        work: &mut [u8],
        slip: &Slip,
        key: u32,
        value: &F,
    ) -> Result<(), FormRefusal>
        ensures edits { EditsForm M.Medium.meaning (λ bytes counter page new x. PutPage counter page new key bytes x) (F.RecordForm.bytes value.now) key slip.now.number self.old.medium self.new.medium self.old.state self.old.edit self.new.edit work.old work.new result }
        ensures state { self.new.state ≡ self.old.state }
    {
        self.edit_form(work, slip, Change::Put, key, value)
    }

    // Replaces a key's value.
    pub fn change_form<F: RecordForm>(
        &mut self,
        work: &mut [u8],
        slip: &Slip,
        key: u32,
        value: &F,
    ) -> Result<(), FormRefusal>
        ensures edits { EditsForm M.Medium.meaning (λ bytes counter page new x. ChangedPage counter page new key bytes x) (F.RecordForm.bytes value.now) key slip.now.number self.old.medium self.new.medium self.old.state self.old.edit self.new.edit work.old work.new result }
        ensures state { self.new.state ≡ self.old.state }
    {
        self.edit_form(work, slip, Change::Replace, key, value)
    }

    // Finds a saved record, and answers its value.
    pub fn look_form<F: RecordForm>(&self, work: &mut [u8], key: u32) -> Result<F, FormRefusal>
        ensures { LooksForm F.RecordForm.reads (M.Medium.meaning self.now.medium) self.now.state key work.old work.new result }
    {
        let (page, place) = under(self.find(work, key), key)?;
        of_form(F::read(value_at(work, place)), key, page)
    }
}
