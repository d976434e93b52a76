// Page media: what one is, two of them, and what a cut leaves.
#![tactic(auto)]

mod copy;
mod cut;
mod fault;
mod laws;
mod medium;
mod memory;
mod trial;
mod trials;

pub use cut::Cut;
pub use fault::MediumFault;
pub use laws::{cut_twice, read_back, write_settled};
pub use medium::{Medium, good_run};
pub use memory::Memory;
pub use trial::Trial;
