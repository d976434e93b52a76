// The store: cues in a show file that survive the switch at the wall.
#![tactic(auto)]

mod access;
mod change;
mod changes;
mod clear;
mod edits;
mod ends;
mod formrefusal;
mod forms;
mod lay;
mod lays;
mod looks;
mod made;
mod next;
mod open;
mod opens;
mod pages;
mod refusal;
mod refusals;
mod shown;
mod slip;
mod state;
mod store;
mod touched;

pub use change::Change;
pub use formrefusal::FormRefusal;
pub use looks::value_at;
pub use refusal::{Refusal, Step};
pub use slip::Slip;
pub use state::{Opened, Place};
pub use store::Store;
