// Cues as a record form.
ghost use Rattle.std.specs.Prelude.{[], ◌∷◌, Some, refl};
ghost use Rattle.form.specs.Cues.{cue_bytes, cue_reads, MakesCue, cue_of, cue_values};
ghost use Rattle.form.specs.Texts.{cue_text, cue_name, cue_names};
ghost use Rattle.std.proofs.Common.{lit<, lit≤};
ghost use Rattle.form.specs.Ranges.{cue_fields};
ghost use Rattle.form.specs.FormLaws.{short_is, there_is, back_is};
ghost use Rattle.form.specs.Listings.{cue_listed};

use super::cue::Cue;
use super::field::Field;
use super::fielded::{self, Fielded, from_values};
use super::form::{BadByte, BadField, RecordForm};
use octets::Width;
use std::fmt;

impl Cue {
    // A cue of these fields, or the lowest bit whose field is out of range.
    pub fn new(
        start: Option<u32>,
        projector: Option<u32>,
        level: Option<u32>,
        fade: Option<u32>,
    ) -> Result<Cue, BadField>
        ensures { MakesCue (start ∷ projector ∷ level ∷ fade ∷ []) result }
    {
        from_values([start, projector, level, fade])
    }
}

impl Fielded for Cue {
    ghost TOP = { 4 };

    // 01, and the two bits below them 00
    const TOP: u8 = 0b0100;

    ghost FIELDS = { cue_fields };

    const FIELDS: [Field; 4] = [
        Field {
            width: Width::Four,
            low: 0,
            high: 863_999,
        },
        Field {
            width: Width::One,
            low: 1,
            high: 64,
        },
        Field {
            width: Width::One,
            low: 0,
            high: 100,
        },
        Field {
            width: Width::Two,
            low: 0,
            high: 6_000,
        },
    ];

    ghost name = { cue_name };

    ghost names = { cue_names };

    ghost values = { cue_values };

    ghost of = { cue_of };

    ghost room = { lit< tt };

    ghost four = { refl };

    ghost widths = { refl };

    ghost listed = { cue_listed };

    fn name() -> &'static str {
        "cue"
    }

    fn names() -> [&'static str; 4] {
        ["start", "projector", "level", "fade"]
    }

    fn values(&self) -> [Option<u32>; 4] {
        [self.start, self.projector, self.level, self.fade]
    }

    fn made(numbers: [Option<u32>; 4]) -> Cue {
        let [start, projector, level, fade] = numbers;
        Cue {
            start,
            projector,
            level,
            fade,
        }
    }
}

impl RecordForm for Cue {
    ghost bytes = { cue_bytes };

    ghost reads = { cue_reads };

    ghost short = { short_is cue_fields cue_values cue_of cue_listed 4 (lit≤ tt) };

    ghost there = { there_is cue_fields cue_values cue_of cue_listed 4 refl };

    ghost back = { back_is cue_fields cue_values cue_of cue_listed 4 };

    fn write(&self, out: &mut [u8; 200]) -> usize {
        fielded::write(self, out)
    }

    fn read(value: &[u8]) -> Result<Cue, BadByte> {
        fielded::read(value)
    }
}

impl fmt::Display for Cue {
    ghost output = { λ x. Some (cue_text x) };

    fn fmt<W: fmt::Write>(&self, f: &mut fmt::Formatter<W>) -> fmt::Result {
        fielded::show(self, f)
    }
}
