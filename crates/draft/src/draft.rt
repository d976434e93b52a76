// The draft of a page.
ghost use Rattle.std.specs.Prelude.{◌+◌, ◌^◌, ◌<◌};

// The draft of the edit after a counter: the header that it writes is numbered one more.
#[derive(Clone, Copy, PartialEq, Eq, Debug)]
pub struct Draft {
    pub counter: u32,
    ghost next: { counter + 1 < 2 ^ 32 },
}
