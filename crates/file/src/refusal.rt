// Why a file is refused.
ghost use Rattle.std.specs.Prelude.{◌≡◌, Some};
ghost use Rattle.file.specs.Refusals.{refusal_number, refusal_page, refusal_text};

use std::error::Error;
use std::fmt;

// Why bytes are no show file that can be read. Refusal 2: fewer than two pages. 3: the first page is not of form 1, or its
// page count is out of range or above what is there. 4: a page is not sound, the lowest.
#[derive(Clone, Copy, PartialEq, Eq, Debug)]
pub enum FileRefusal {
    TooFewPages,
    NotAShowFile,
    UnsoundPage { page: usize },
}

impl FileRefusal {
    // The number by which it is known.
    pub fn number(&self) -> u8
        ensures { result ≡ refusal_number self.now }
    {
        match self {
            FileRefusal::TooFewPages => 2,
            FileRefusal::NotAShowFile => 3,
            FileRefusal::UnsoundPage { .. } => 4,
        }
    }

    // The page that it names.
    pub fn page(&self) -> Option<usize>
        ensures { result ≡ refusal_page self.now }
    {
        match self {
            FileRefusal::UnsoundPage { page } => Some(*page),
            _ => None,
        }
    }
}

impl fmt::Display for FileRefusal {
    ghost output = { λ refusal. Some (refusal_text refusal) };

    fn fmt<W: fmt::Write>(&self, f: &mut fmt::Formatter<W>) -> fmt::Result {
        let number = self.number();
        // printed as 0 where there is none
        let page = self.page().unwrap_or(0);
        write!(f, "refused {number} page {page}")
    }
}

impl Error for FileRefusal {}
