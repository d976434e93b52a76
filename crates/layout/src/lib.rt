// The page layout of a show file, and the rule by which it is read.
#![tactic(auto)]

mod first;
mod firsts;
mod header;
mod record;
mod sound;
mod theorem;
mod walk;

pub use first::FirstPage;
pub use header::{Header, Side, Slot, pending, valid};
pub use record::Record;
pub use sound::is_sound;
pub use theorem::rests_on_held;
pub use walk::{Records, find};
