// Reading the first page.
ghost use Rattle.std.specs.Prelude.{◌≡◌, ◌≤◌, MatchOption};
ghost use Rattle.layout.specs.Pages.{page_of};
ghost use Rattle.layout.specs.Sound.{FirstSound, pages_of, counter_of};

use super::first::FirstPage;
use octets::{Width, number};

impl FirstPage {
    // Reads the first page of a file on a medium of `count` pages, or refuses it.
    pub fn read(page: &[u8], count: usize) -> Option<FirstPage>
        ensures { MatchOption result (FirstSound count page.now → ⊥) (λ f. FirstSound count page.now × (f.pages ≡ pages_of page.now) × (f.counter ≡ counter_of page.now)) }
    {
        let form = number(page, 0, Width::Four);
        let pages = number(page, 4, Width::Four) as usize;
        let counter = number(page, 8, Width::Four);
        if form != 1 || !(2..=4096).contains(&pages) || pages > count {
            return None;
        }
        Some(FirstPage { pages, counter })
    }

    // The page on which a key's record lies.
    pub fn page_of(&self, key: u32) -> usize
        ensures { result ≡ page_of self.now.pages key }
    {
        1 + key as usize % (self.pages - 1)
    }
}
