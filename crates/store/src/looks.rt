// Looking at saved records.
ghost use Rattle.std.specs.Prelude.{◌≡◌, length, Ok};
ghost use Rattle.std.specs.Option.{option_map};
ghost use Rattle.layout.specs.Pages.{page_of};
ghost use Rattle.store.specs.Looks.{Finds, Looks, Readable, opened, value_at};

use super::access::load;
use super::refusal::Refusal;
use super::state::{Place, State};
use super::store::Store;
use layout::FirstPage;
use medium::Medium;

impl State {
    // What the first page told, if the store is opened.
    fn opened(&self) -> Option<FirstPage>
        ensures { result ≡ opened self.now }
    {
        match self {
            State::Shut => None,
            State::Open { first } | State::Editing { first } => Some(*first),
        }
    }
}

// The value at a place of the work page; nothing if it passes the end of what is handed in.
pub fn value_at(work: &[u8], place: Place) -> &[u8]
    ensures { result.now ≡ value_at work.now place }
{
    let at = place.at;
    let length = place.length;
    if at > work.len() || length > work.len() - at {
        return &work[0..0];
    }
    &work[at..at + length]
}

impl<M: Medium> Store<M> {
    // Whether a read can be taken up once the work page is one.
    pub(super) fn readable(&self) -> Result<FirstPage, Refusal>
        ensures { Readable self.now.state 1024 result }
    {
        self.state.opened().ok_or(Refusal::NotOpen)
    }

    // Finds a saved record once a read was taken up.
    fn seek(&self, first: FirstPage, page: &mut [u8; 1024], key: u32) -> Result<Place, Refusal>
        requires { Readable self.now.state 1024 (Ok first) }
        ensures { Looks (M.Medium.meaning self.now.medium) self.now.state key page.old page.new result }
    {
        load(&self.medium, first.page_of(key), page)?;
        let record = layout::find(page, first.counter, key).ok_or(Refusal::NoSuchKey)?;
        Ok(Place {
            at: record.slot.offset as usize + 4,
            length: (record.slot.length as usize).saturating_sub(4),
        })
    }

    // Finds a saved record, and answers its page and where its value lies in the work page.
    pub(super) fn find(&self, work: &mut [u8], key: u32) -> Result<(usize, Place), Refusal>
        ensures { Finds (M.Medium.meaning self.now.medium) self.now.state key work.old work.new result }
    {
        // tried with `ok_or`: past it the proof has to find again that the page is all of `work`
        let Some(page) = work.as_mut_array::<1024>() else {
            return Err(Refusal::WorkPage);
        };
        let first = self.readable()?;
        let place = self.seek(first, page, key)?;
        Ok((first.page_of(key), place))
    }

    // Finds a saved record, and answers where its value lies in the work page.
    pub fn look(&self, work: &mut [u8], key: u32) -> Result<Place, Refusal>
        ensures { Looks (M.Medium.meaning self.now.medium) self.now.state key work.old work.new result }
    {
        let (_, place) = self.find(work, key)?;
        Ok(place)
    }

    // The page of a key, if the store is opened.
    pub fn page_of(&self, key: u32) -> Option<usize>
        ensures { result ≡ option_map (λ first. page_of first.pages key) (opened self.now.state) }
    {
        self.state.opened().map(|first| first.page_of(key))
    }
}
