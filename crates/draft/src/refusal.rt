// Why a change of a page is refused.
ghost use Rattle.std.specs.Prelude.{◌≡◌};
ghost use Rattle.draft.specs.Refusals.{page_refusal_number};

// The key is in the draft; it is not; the draft has 24 slots; there is no place for the record.
#[derive(Clone, Copy, PartialEq, Eq, Debug)]
pub enum PageRefusal {
    KeyInDraft,
    NoSuchKey,
    DraftFull,
    NoPlace,
}

impl PageRefusal {
    // The number by which a refusal is known.
    pub fn number(&self) -> u8
        ensures { result ≡ page_refusal_number self.now }
    {
        match self {
            PageRefusal::KeyInDraft => 12,
            PageRefusal::NoSuchKey => 13,
            PageRefusal::DraftFull => 14,
            PageRefusal::NoPlace => 15,
        }
    }
}
