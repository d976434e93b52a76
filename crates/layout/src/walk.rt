// Going over the records of a page.
ghost use Rattle.std.specs.Prelude.{◌≡◌};
ghost use Rattle.std.specs.Iterator.{YieldsFirstBy, item_count};
ghost use Rattle.std.specs.Option.{option_map};
ghost use Rattle.layout.specs.Pages.{records};
ghost use Rattle.layout.specs.Walks.{seen, rest, keyed};

use super::header::{Header, Side, valid};
use super::record::Record;

// The records of a page that are yet to come.
#[derive(Clone, Copy)]
pub struct Records<'a> {
    page: &'a [u8],
    header: Header,
    next: u16,
}

impl<'a> Records<'a> {
    // All records of a page.
    pub fn new(page: &'a [u8], counter: u32) -> Records<'a>
        ensures { rest result ≡ records counter page.now }
    {
        // without a valid header there are no records, as with one that has none
        let header = valid(page, counter).unwrap_or(Header {
            side: Side::A,
            number: 0,
            count: 0,
        });
        Records {
            page,
            header,
            next: 0,
        }
    }
}

// In the order of the slots.
impl<'a> Iterator for Records<'a> {
    type Item = Record<'a>;

    ghost next_gives = { YieldsFirstBy seen rest };

    ghost remaining = { item_count rest };

    fn next(&mut self) -> Option<Record<'a>> {
        if self.next >= self.header.count {
            return None;
        }
        let slot = self.header.slot(self.page, self.next);
        self.next += 1;
        Some(Record::read(self.page, slot))
    }
}

// The record of a key, or none.
pub fn find<'a>(page: &'a [u8], counter: u32, key: u32) -> Option<Record<'a>>
    ensures { option_map seen result ≡ keyed key (records counter page.now) }
{
    Records::new(page, counter).find(|record| record.key == key)
}
