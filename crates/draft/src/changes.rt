// The changes of a page.
ghost use Rattle.std.specs.Prelude.{◌<◌};
ghost use Rattle.arrayvec.specs.ArrayVec.{array_vec_len};
ghost use Rattle.draft.specs.Added.{Added};
ghost use Rattle.draft.specs.Images.{ChangedPage, PutPage, RemovedPage};

use super::draft::Draft;
use super::header::write_header;
use super::load::{Slots, fill, target};
use super::order::{index_for, index_of};
use super::place::place;
use super::refusal::PageRefusal;
use super::value::Value;
use super::write::write_record;
use arrayvec::ArrayVec;
use layout::{Slot, valid};

impl Draft {
    // Writes a record where there is a place for it beside some slots, and a header of them with its own. Nothing is written
    // before the place and all slots are known.
    fn add(
        self,
        page: &mut [u8; 1024],
        slots: &mut Slots,
        key: u32,
        value: Value<'_>,
    ) -> Result<(), PageRefusal>
        requires { array_vec_len slots.old < 24 }
        ensures { Added self.counter page.old page.new key value.entry.bytes.now slots.old.items result }
    {
        let n = 4 + value.bytes.len();
        let header = valid(page, self.counter);
        let mut saved = ArrayVec::new();
        fill(&mut saved, page, header);
        let at = place(&saved, slots, n).ok_or(PageRefusal::NoPlace)?;
        let i = index_for(page, slots, key);
        slots.insert(
            i,
            Slot {
                offset: at as u16,
                length: n as u16,
            },
        );
        let side = target(page, self.counter);
        write_record(&mut page[at..at + n], key, value.bytes);
        write_header(page, side, self.counter + 1, slots);
        Ok(())
    }

    // Puts a record of a new key into the draft of a page.
    pub fn put(self, page: &mut [u8; 1024], key: u32, value: Value<'_>) -> Result<(), PageRefusal>
        ensures { PutPage self.counter page.old page.new key value.entry.bytes.now result }
    {
        let mut slots = ArrayVec::new();
        self.load(&mut slots, page);
        if index_of(page, &slots, key).is_some() {
            return Err(PageRefusal::KeyInDraft);
        }
        if slots.is_full() {
            return Err(PageRefusal::DraftFull);
        }
        self.add(page, &mut slots, key, value)
    }

    // Gives a key of the draft another value.
    pub fn change(
        self,
        page: &mut [u8; 1024],
        key: u32,
        value: Value<'_>,
    ) -> Result<(), PageRefusal>
        ensures { ChangedPage self.counter page.old page.new key value.entry.bytes.now result }
    {
        let mut slots = ArrayVec::new();
        self.load(&mut slots, page);
        let own = index_of(page, &slots, key).ok_or(PageRefusal::NoSuchKey)?;
        // its own bytes may be written again, unless they are saved
        slots.remove(own);
        self.add(page, &mut slots, key, value)
    }

    // Takes a key's record out of the draft of a page.
    pub fn remove(self, page: &mut [u8; 1024], key: u32) -> Result<(), PageRefusal>
        ensures { RemovedPage self.counter page.old page.new key result }
    {
        let mut slots = ArrayVec::new();
        self.load(&mut slots, page);
        let i = index_of(page, &slots, key).ok_or(PageRefusal::NoSuchKey)?;
        slots.remove(i);
        let side = target(page, self.counter);
        write_header(page, side, self.counter + 1, &slots);
        Ok(())
    }
}
