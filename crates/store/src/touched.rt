// The pages that an edit has touched.
ghost use Rattle.std.specs.Prelude.{◌≡◌, true};
ghost use Rattle.store.specs.Touches.{ascending};

use arrayvec::ArrayVec;

// The pages of accepted changes: ascending, no page twice. No value of this type is otherwise.
#[derive(Drop)]
pub struct Touched {
    pub(super) pages: ArrayVec<usize, 64>,
    ghost ascends: { ascending pages.items ≡ true },
}
