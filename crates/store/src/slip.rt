// The slip of an edit.
ghost use Rattle.std.specs.Prelude.{◌≡◌};

// Shown to the changes of an edit, and spent by save or abandon. It cannot be dropped or copied, so that no edit is left open
// by oversight.
pub struct Slip {
    pub(super) number: u32,
}

impl Slip {
    // The number of its edit.
    pub fn number(&self) -> u32
        ensures { result ≡ self.now.number }
    {
        self.number
    }
}
