// Reading a show file whose bytes are all at hand.
#![tactic(auto)]

mod files;
mod listing;
mod listings;
mod refusal;

pub use files::{ShowFile, page_at};
pub use listing::Listing;
pub use refusal::FileRefusal;
