// A medium over lent bytes that stops in a chosen call.

// As the memory medium, but that it stops in its nth settle or write of a good run, counted together from 1; never if n is
// 0. The write in which it stops puts just those words of its run whose bit of the pattern stands.
pub struct Trial<'a> {
    pub(super) bytes: &'a mut [u8],
    // how many such calls it takes until it stops, that one included; 0 for never, as `new` promises and a script writes it
    pub(super) left: u32,
    pub(super) pattern: u64,
    pub(super) stopped: bool,
}
