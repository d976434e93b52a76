// Why reading a line ends early.
ghost use Rattle.std.specs.Prelude.{◌≡◌, alloc_error};
ghost use Rattle.script.specs.declared.fault.Fault.TheVariants.{Memory};

use std::alloc::{AllocError, AllocFailed};

// A line that is not of the grammar, or want of memory.
#[derive(Clone, Copy, PartialEq, Eq, Debug)]
pub enum Fault {
    Bad,
    Memory(AllocError),
}

impl<T: Drop> From<AllocFailed<T>> for Fault {
    ghost from_gives = { λ _ r. r ≡ Memory alloc_error };

    fn from(e: AllocFailed<T>) -> Fault {
        Fault::Memory(AllocError::from(e))
    }
}
