// Stills as a record form.
ghost use Rattle.std.specs.Prelude.{[], ◌∷◌, Some, refl};
ghost use Rattle.form.specs.Stills.{still_bytes, still_reads, MakesStill, still_of, still_values};
ghost use Rattle.form.specs.Texts.{still_text, still_name, still_names};
ghost use Rattle.std.proofs.Common.{lit<, lit≤};
ghost use Rattle.form.specs.Ranges.{still_fields};
ghost use Rattle.form.specs.FormLaws.{short_is, there_is, back_is};
ghost use Rattle.form.specs.Listings.{still_listed};

use super::field::Field;
use super::fielded::{self, Fielded, from_values};
use super::form::{BadByte, BadField, RecordForm};
use super::still::Still;
use octets::Width;
use std::fmt;

impl Still {
    // A still of these fields, or the lowest bit whose field is out of range.
    pub fn new(
        slide: Option<u32>,
        projector: Option<u32>,
        width: Option<u32>,
        hold: Option<u32>,
    ) -> Result<Still, BadField>
        ensures { MakesStill (slide ∷ projector ∷ width ∷ hold ∷ []) result }
    {
        from_values([slide, projector, width, hold])
    }
}

impl Fielded for Still {
    ghost TOP = { 8 };

    // 10, and the two bits below them 00
    const TOP: u8 = 0b1000;

    ghost FIELDS = { still_fields };

    const FIELDS: [Field; 4] = [
        Field {
            width: Width::Two,
            low: 1,
            high: 9_999,
        },
        Field {
            width: Width::One,
            low: 1,
            high: 64,
        },
        Field {
            width: Width::Two,
            low: 1,
            high: 36_000,
        },
        Field {
            width: Width::Two,
            low: 0,
            high: 6_000,
        },
    ];

    ghost name = { still_name };

    ghost names = { still_names };

    ghost values = { still_values };

    ghost of = { still_of };

    ghost room = { lit< tt };

    ghost four = { refl };

    ghost widths = { refl };

    ghost listed = { still_listed };

    fn name() -> &'static str {
        "still"
    }

    fn names() -> [&'static str; 4] {
        ["slide", "projector", "width", "hold"]
    }

    fn values(&self) -> [Option<u32>; 4] {
        [self.slide, self.projector, self.width, self.hold]
    }

    fn made(numbers: [Option<u32>; 4]) -> Still {
        let [slide, projector, width, hold] = numbers;
        Still {
            slide,
            projector,
            width,
            hold,
        }
    }
}

impl RecordForm for Still {
    ghost bytes = { still_bytes };

    ghost reads = { still_reads };

    ghost short = { short_is still_fields still_values still_of still_listed 8 (lit≤ tt) };

    ghost there = { there_is still_fields still_values still_of still_listed 8 refl };

    ghost back = { back_is still_fields still_values still_of still_listed 8 };

    fn write(&self, out: &mut [u8; 200]) -> usize {
        fielded::write(self, out)
    }

    fn read(value: &[u8]) -> Result<Still, BadByte> {
        fielded::read(value)
    }
}

impl fmt::Display for Still {
    ghost output = { λ x. Some (still_text x) };

    fn fmt<W: fmt::Write>(&self, f: &mut fmt::Formatter<W>) -> fmt::Result {
        fielded::show(self, f)
    }
}
