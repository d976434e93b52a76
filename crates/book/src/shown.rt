// Why a call is not accepted, as text.
ghost use Rattle.std.specs.Prelude.{Some};
ghost use Rattle.book.specs.Lines.{denied_line};

use super::call::Denied;
use std::fmt;

impl fmt::Display for Denied {
    ghost output = { λ denied. Some (denied_line denied) };

    fn fmt<W: fmt::Write>(&self, f: &mut fmt::Formatter<W>) -> fmt::Result {
        match self {
            Denied::NoSlip => f.write_str("no slip"),
            Denied::Store { refusal } => write!(f, "{refusal}"),
            Denied::Form { key, refusal } => write!(f, "{refusal} key {key}"),
            Denied::NotOfForm { key, page, bad } => {
                let number = bad.number();
                let byte = bad.at;
                write!(f, "refused {number} key {key} page {page} byte {byte}")
            }
        }
    }
}

impl std::error::Error for Denied {}
