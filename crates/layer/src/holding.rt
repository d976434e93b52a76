// A layer that holds page images back.
ghost use Rattle.std.specs.Prelude.{◌≡◌, true};
ghost use Rattle.layer.specs.Distinct.{distinct};

use super::held::Held;
use arrayvec::ArrayVec;

// A medium with up to eight of its pages held as whole images, the one held longest first. What is held is lost in a cut.
// The images lie in the layer itself, so no call allocates.
pub struct Holding<M> {
    pub(super) medium: M,
    pub(super) held: ArrayVec<Held, 8>,
    ghost once: { distinct held.items ≡ true },
}
