// Worked cases: what small files and values read as, proved in one table and run as tests.
#![tactic(auto)]

mod table;

pub use table::{case_count, worked_cases};

#[cfg(test)]
mod forms;
#[cfg(test)]
mod pages;
