// A cue. Its ranges are part of its type, so that writing one needs no test.
ghost use Rattle.std.specs.Prelude.{◌≡◌, true, [], ◌∷◌};
ghost use Rattle.form.specs.Fields.{all_fit};
ghost use Rattle.form.specs.Ranges.{cue_fields};

// What a projector does at a moment of the show. Every field may be absent.
#[derive(Clone, Copy, PartialEq, Eq, Debug)]
pub struct Cue {
    // tenths of a second from the show's beginning, at most 863,999
    pub start: Option<u32>,
    // 1 to 64
    pub projector: Option<u32>,
    // percent, at most 100
    pub level: Option<u32>,
    // tenths of a second, at most 6,000
    pub fade: Option<u32>,
    ghost in_range: { all_fit cue_fields (start ∷ projector ∷ level ∷ fade ∷ []) ≡ true },
}
