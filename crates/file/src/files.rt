// Opening a show file and reading all of it.
ghost use Rattle.std.specs.Prelude.{◌≡◌, ◌*◌, length};
ghost use Rattle.octets.specs.Parts.{part};
ghost use Rattle.layout.specs.Pages.{records};
ghost use Rattle.file.specs.Files.{Opens, Lowest, pending_in, file_records};

use super::refusal::FileRefusal;
use layout::{FirstPage, is_sound, pending, valid};
use octets::part;

// The bytes of a show file, and what its first page tells. That it is sound only `check` says.
#[derive(Clone, Copy)]
pub struct ShowFile<'a> {
    pub bytes: &'a [u8],
    pub first: FirstPage,
}

// Page q of a file: 1,024 bytes, fewer where the file ends within it, and none past its end.
pub fn page_at(bytes: &[u8], q: usize) -> &[u8]
    ensures { result.now ≡ part bytes.now (q * 1024) 1024 }
{
    part(bytes, q.saturating_mul(1024), 1024)
}

// How many records a page has.
fn count_on(page: &[u8], counter: u32) -> u16
    ensures { result ≡ length (records counter page.now) }
{
    valid(page, counter).map_or(0, |header| header.count)
}

impl<'a> ShowFile<'a> {
    // Checks a file: it opens if its first page is read and every other page is sound, else this says why it is refused.
    pub fn check(bytes: &'a [u8]) -> Result<ShowFile<'a>, FileRefusal>
        ensures { Opens bytes.now result }
    {
        let count = bytes.len() / 1024;
        if count < 2 {
            return Err(FileRefusal::TooFewPages);
        }
        let first = FirstPage::read(page_at(bytes, 0), count).ok_or(FileRefusal::NotAShowFile)?;
        let file = ShowFile { bytes, first };
        match file.lowest_unsound() {
            Some(page) => Err(FileRefusal::UnsoundPage { page }),
            None => Ok(file),
        }
    }

    // The lowest page after the first that is not sound.
    fn lowest_unsound(&self) -> Option<usize>
        ensures { Lowest self.now.bytes.now self.now.first.counter self.now.first.pages result }
    {
        (1..self.first.pages).find(|q| !is_sound(page_at(self.bytes, *q), self.first, *q))
    }

    // How many edit numbers are one more than the counter, those that an opening clears.
    pub fn pending(&self) -> usize
        ensures { result ≡ pending_in self.now.bytes.now self.now.first.counter self.now.first.pages }
    {
        (1..self.first.pages)
            .map(|q| pending(page_at(self.bytes, q), self.first.counter))
            .sum()
    }

    // How many records the file has.
    pub fn count_records(&self) -> usize
        ensures { result ≡ length (file_records self.now.bytes.now self.now.first.counter self.now.first.pages) }
    {
        (1..self.first.pages)
            .map(|q| usize::from(count_on(page_at(self.bytes, q), self.first.counter)))
            .sum()
    }
}
