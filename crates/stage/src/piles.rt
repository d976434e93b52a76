// The media that a use names, each layer laid by a function of its own: the bytes below are lent.
ghost use Rattle.std.specs.Prelude.{string_bytes, OnOk};
ghost use Rattle.layer.specs.Holds.{layered};
ghost use Rattle.layer.specs.Windows.{seen};
ghost use Rattle.stage.specs.Piles.{HoldMade, OverMade, ThroughMade};
ghost use Rattle.stage.specs.Scripts.{LayersMade};

use super::stage::Stage;
use layer::{holding_back, through};
use medium::Medium;
use script::{Layers, Step};
use std::alloc::AllocError;
use store::Store;

impl Stage {
    // Makes steps on a store over a medium, and gives the medium back.
    pub(super) fn over<M: Medium>(
        &mut self,
        medium: M,
        steps: &[Step],
    ) -> (M, Result<(), AllocError>)
        ensures { OnOk result.1 (OverMade M.Medium.meaning steps.now self.old.slips self.new.slips (string_bytes self.old.out) (string_bytes self.new.out) medium result.0) }
    {
        let mut store = Store::new(medium);
        let done = self.make_steps(&mut store, steps);
        (store.into_medium(), done)
    }

    // Makes steps on a medium under layers, and gives it back. What a holding layer still holds at the end is lost.
    pub(super) fn under_layers<M: Medium>(
        &mut self,
        medium: M,
        under: Layers,
        steps: &[Step],
    ) -> (M, Result<(), AllocError>)
        ensures { OnOk result.1 (LayersMade M.Medium.meaning under steps.now self.old.slips self.new.slips (string_bytes self.old.out) (string_bytes self.new.out) medium result.0) }
    {
        match under {
            Layers::Bare => self.over(medium, steps),
            Layers::Window { span } => {
                through(
                    medium,
                    span.first,
                    span.count,
                    self,
                    |window, stage|
                        ensures { OnOk result.1 (OverMade (seen M.Medium.meaning) steps.entry.now stage.old.slips stage.new.slips (string_bytes stage.old.out) (string_bytes stage.new.out) window result.0) }
                    { stage.over(window, steps) },
                )
            }
            Layers::Hold => {
                holding_back(
                    medium,
                    self,
                    |hold, stage|
                        ensures { OnOk result.1 (OverMade (layered M.Medium.meaning) steps.entry.now stage.old.slips stage.new.slips (string_bytes stage.old.out) (string_bytes stage.new.out) hold result.0) }
                    { stage.over(hold, steps) },
                )
            }
            Layers::WindowHold { span } => {
                holding_back(
                    medium,
                    self,
                    |hold, stage|
                        ensures { OnOk result.1 (ThroughMade (record { first = span.first; count = span.count }) (OverMade (seen (layered M.Medium.meaning)) steps.entry.now stage.old.slips stage.new.slips (string_bytes stage.old.out) (string_bytes stage.new.out)) hold result.0) }
                    {
                        through(
                            hold,
                            span.first,
                            span.count,
                            stage,
                            |window, stage|
                                ensures { OnOk result.1 (OverMade (seen (layered M.Medium.meaning)) steps.entry.now stage.old.slips stage.new.slips (string_bytes stage.old.out) (string_bytes stage.new.out) window result.0) }
                            { stage.over(window, steps) },
                        )
                    },
                )
            }
            Layers::HoldWindow { span } => {
                through(
                    medium,
                    span.first,
                    span.count,
                    self,
                    |window, stage|
                        ensures { OnOk result.1 (HoldMade (OverMade (layered (seen M.Medium.meaning)) steps.entry.now stage.old.slips stage.new.slips (string_bytes stage.old.out) (string_bytes stage.new.out)) window result.0) }
                    {
                        holding_back(
                            window,
                            stage,
                            |hold, stage|
                                ensures { OnOk result.1 (OverMade (layered (seen M.Medium.meaning)) steps.entry.now stage.old.slips stage.new.slips (string_bytes stage.old.out) (string_bytes stage.new.out) hold result.0) }
                            { stage.over(hold, steps) },
                        )
                    },
                )
            }
        }
    }
}
