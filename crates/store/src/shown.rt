// Refusals as text.
ghost use Rattle.std.specs.Prelude.{Some};
ghost use Rattle.store.specs.Lines.{refusal_line, step_word};

use super::refusal::{Refusal, Step};
use std::fmt;

// What the store was doing, in a word.
impl fmt::Display for Step {
    ghost output = { λ step. Some (step_word step) };

    fn fmt<W: fmt::Write>(&self, f: &mut fmt::Formatter<W>) -> fmt::Result {
        match self {
            Step::Read => f.write_str("read"),
            Step::Write => f.write_str("write"),
            Step::Settle => f.write_str("settle"),
        }
    }
}

// A refusal's number, and its place where it has one.
impl fmt::Display for Refusal {
    ghost output = { λ refusal. Some (refusal_line refusal) };

    fn fmt<W: fmt::Write>(&self, f: &mut fmt::Formatter<W>) -> fmt::Result {
        let number = self.number();
        match self {
            Refusal::Unsound { page } => write!(f, "refused {number} page {page}"),
            Refusal::Medium { step, page, .. } => write!(f, "refused {number} {step} page {page}"),
            _ => write!(f, "refused {number}"),
        }
    }
}

impl std::error::Error for Refusal {}
