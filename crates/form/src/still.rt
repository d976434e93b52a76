// A still. Its ranges are part of its type, so that writing one needs no test.
ghost use Rattle.std.specs.Prelude.{◌≡◌, true, [], ◌∷◌};
ghost use Rattle.form.specs.Fields.{all_fit};
ghost use Rattle.form.specs.Ranges.{still_fields};

// A slide that stands on the dome. Every field may be absent.
#[derive(Clone, Copy, PartialEq, Eq, Debug)]
pub struct Still {
    // 1 to 9,999
    pub slide: Option<u32>,
    // 1 to 64
    pub projector: Option<u32>,
    // hundredths of a degree, 1 to 36,000
    pub width: Option<u32>,
    // tenths of a second, at most 6,000
    pub hold: Option<u32>,
    ghost in_range: { all_fit still_fields (slide ∷ projector ∷ width ∷ hold ∷ []) ≡ true },
}
