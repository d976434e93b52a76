// How bytes and record values are shown as text.
#![tactic(auto)]

ghost use Rattle.std.specs.Prelude.{Some};
ghost use Rattle.text.specs.Texts.{hex_text, value_text};

use form::{Cue, RecordForm, Still};
use std::fmt;

// Bytes in hexadecimal digits, lower case; a lone `-` for no bytes.
#[derive(Clone, Copy)]
pub struct Hex<'a>(pub &'a [u8]);

// A record's value: as a cue or a still where it reads as one, else in hexadecimal digits.
#[derive(Clone, Copy)]
pub struct Value<'a>(pub &'a [u8]);

impl fmt::Display for Hex<'_> {
    ghost output = { λ x. Some (hex_text x.0.now) };

    fn fmt<W: fmt::Write>(&self, f: &mut fmt::Formatter<W>) -> fmt::Result {
        let bytes = self.0;
        if bytes.is_empty() {
            return f.write_str("-");
        }
        for &b in bytes {
            write!(f, "{b:02x}")?;
        }
        Ok(())
    }
}

impl fmt::Display for Value<'_> {
    ghost output = { λ x. Some (value_text x.0.now) };

    fn fmt<W: fmt::Write>(&self, f: &mut fmt::Formatter<W>) -> fmt::Result {
        let bytes = self.0;
        if let Ok(cue) = Cue::read(bytes) {
            return write!(f, "{cue}");
        }
        if let Ok(still) = Still::read(bytes) {
            return write!(f, "{still}");
        }
        let hex = Hex(bytes);
        write!(f, "value {hex}")
    }
}
