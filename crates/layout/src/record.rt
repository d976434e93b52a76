// A record: its key, and the value that follows it.
ghost use Rattle.std.specs.Prelude.{◌≡◌};
ghost use Rattle.layout.specs.Pages.{entry_of};
ghost use Rattle.layout.specs.Walks.{seen};

use super::header::Slot;
use octets::{Width, number, part};

// A record as it is read, its value lent from the page.
#[derive(Clone, Copy, PartialEq, Eq, Debug)]
pub struct Record<'a> {
    pub key: u32,
    pub slot: Slot,
    pub value: &'a [u8],
}

impl<'a> Record<'a> {
    // The record that lies in a slot. Of a slot that passes the page's end it is what there is.
    pub fn read(page: &'a [u8], slot: Slot) -> Record<'a>
        ensures { seen result ≡ entry_of page.now slot }
    {
        let bytes = part(page, usize::from(slot.offset), usize::from(slot.length));
        let [a, b, c, d, value @ ..] = bytes else {
            return Record {
                key: number(bytes, 0, Width::Four),
                slot,
                value: &bytes[0..0],
            };
        };
        Record {
            key: u32::from_be_bytes([*a, *b, *c, *d]),
            slot,
            value,
        }
    }
}
