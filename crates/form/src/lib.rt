// Record forms: how values are put down as bytes, and read again.
#![tactic(auto)]

mod by_number;
mod cue;
mod cues;
mod field;
mod fielded;
mod form;
mod forms;
mod item;
mod pair;
mod show;
mod still;
mod stills;
mod walk;

pub use by_number::ByNumber;
pub use cue::Cue;
pub use either::Either;
pub use field::Field;
pub use fielded::{Fielded, from_values};
pub use form::{BadByte, BadField, RecordForm};
pub use forms::{Forms, Numbered, read_numbered};
pub use item::{Item, ItemKind};
pub use still::Still;
