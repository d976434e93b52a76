// Going over all records of a file: pages in order, and in a page by slot, which on a sound page is by key.
ghost use Rattle.std.specs.Prelude.{◌≡◌};
ghost use Rattle.std.specs.Iterator.{YieldsFirstBy, item_count};
ghost use Rattle.file.specs.Files.{file_records};
ghost use Rattle.file.specs.Listings.{listed, left};

use super::files::{ShowFile, page_at};
use super::listing::Listing;
use layout::{Record, Records};

impl<'a> ShowFile<'a> {
    // All its records.
    pub fn records(&self) -> Listing<'a>
        ensures { left result ≡ file_records self.now.bytes.now self.now.first.counter self.now.first.pages }
    {
        Listing {
            file: *self,
            page: 1,
            records: Records::new(page_at(self.bytes, 1), self.first.counter),
        }
    }
}

// Each record, with its page.
impl<'a> Iterator for Listing<'a> {
    type Item = (usize, Record<'a>);

    ghost next_gives = { YieldsFirstBy listed left };

    ghost remaining = { item_count left };

    fn next(&mut self) -> Option<(usize, Record<'a>)> {
        loop {
            if let Some(record) = self.records.next() {
                return Some((self.page, record));
            }
            let page = self.page + 1;
            if page >= self.file.first.pages {
                return None;
            }
            self.page = page;
            self.records = Records::new(page_at(self.file.bytes, page), self.file.first.counter);
        }
    }
}
