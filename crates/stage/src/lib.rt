// Runs scripts of calls, and tells what each call answered.
#![tactic(auto)]

mod lend;
mod piles;
mod stage;
mod steps;
mod tell;
mod uses;

pub use uses::perform;
