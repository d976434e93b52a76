// Uses of a store, the book of a use, and the theorem that no cut betrays it.
#![tactic(auto)]

mod call;
mod desk;
mod make;
mod reads;
mod shown;
mod slips;
mod under;
mod uses;

pub use call::{Call, Denied, Done};
pub use slips::Slips;
pub use uses::run;
