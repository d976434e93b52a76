// Changing a page: the draft header, the place of a record, and the page image that a change writes.
#![tactic(auto)]

mod changes;
mod draft;
mod header;
mod load;
mod order;
mod place;
mod refusal;
mod value;
mod write;

pub use draft::Draft;
pub use refusal::PageRefusal;
pub use value::Value;
