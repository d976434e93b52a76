// The numbers of refusals, and a medium's fault with where it came.
ghost use Rattle.std.specs.Prelude.{◌≡◌};
ghost use Rattle.store.specs.Edits.{passed_up};
ghost use Rattle.store.specs.Forms.{form_refusal_number};
ghost use Rattle.store.specs.Refusals.{refusal_number, during};

use super::formrefusal::FormRefusal;
use super::refusal::{Refusal, Step};
use draft::PageRefusal;
use medium::MediumFault;

impl Refusal {
    // The number by which it is known.
    pub fn number(&self) -> u8
        ensures { result ≡ refusal_number self.now }
    {
        match self {
            Refusal::WorkPage => 1,
            Refusal::PageCount => 2,
            Refusal::NotAShowFile => 3,
            Refusal::Unsound { .. } => 4,
            Refusal::Medium { .. } => 5,
            Refusal::NotOpen => 6,
            Refusal::EditOpen => 7,
            Refusal::NoEdit => 8,
            Refusal::LastCounter => 9,
            Refusal::TooLong => 10,
            Refusal::TooMany => 11,
            Refusal::KeyInDraft => 12,
            Refusal::NoSuchKey => 13,
            Refusal::DraftFull => 14,
            Refusal::NoPlace => 15,
        }
    }
}

impl FormRefusal {
    // The number by which it is known.
    pub fn number(&self) -> u8
        ensures { result ≡ form_refusal_number self.now }
    {
        match self {
            FormRefusal::Store { refusal, .. } => refusal.number(),
            FormRefusal::NotOfForm { .. } => 16,
        }
    }
}

// A page's refusal as the store's.
impl From<PageRefusal> for Refusal {
    ghost from_gives = { λ refusal result. result ≡ passed_up refusal };

    fn from(refusal: PageRefusal) -> Refusal {
        match refusal {
            PageRefusal::KeyInDraft => Refusal::KeyInDraft,
            PageRefusal::NoSuchKey => Refusal::NoSuchKey,
            PageRefusal::DraftFull => Refusal::DraftFull,
            PageRefusal::NoPlace => Refusal::NoPlace,
        }
    }
}

// What a medium answered, its fault with the step and the page.
pub(super) fn at<T>(answer: Result<T, MediumFault>, step: Step, page: usize) -> Result<T, Refusal>
    ensures { result ≡ during step page answer }
{
    answer.map_err(|fault| Refusal::Medium { step, page, fault })
}
