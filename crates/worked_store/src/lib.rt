// Small uses of a store, run as tests; and what may be done with a slip, proved.
#![tactic(auto)]

mod slips;

pub use slips::{refused_then_abandoned, saved_twice_with_two_slips};

#[cfg(test)]
mod edits;
#[cfg(test)]
mod places;
#[cfg(test)]
mod refusals;
#[cfg(test)]
mod stops;
