// A page image that a layer holds.
ghost use Rattle.std.specs.Prelude.{◌≡◌, ◌+◌, ◌≤◌, [], length, drop, replicate};
ghost use Rattle.octets.specs.Parts.{part, patched};

use arrayvec::ArrayVec;
use octets::patch;

// A page of which the image is held here: it is what is shown of the page, and not yet below.
#[derive(Clone, Copy)]
pub struct Held {
    pub(super) page: usize,
    pub(super) image: [u8; 1024],
    ghost full: { length image ≡ 1024 },
}

// What stands in a place where no image is held.
impl Default for Held {
    ghost is_default = { λ h. (h.page ≡ 0) × (h.image ≡ replicate 1024 0) };

    fn default() -> Held {
        Held {
            page: 0,
            image: [0; 1024],
        }
    }
}

impl Held {
    // Copies the bytes of the image from `at` on into `out`.
    #[inline]
    pub(super) fn copy(&self, at: usize, out: &mut [u8])
        requires { at + length out.old ≤ 1024 }
        ensures { out.new ≡ part self.now.image at (length out.old) }
    {
        out.copy_from_slice(&self.image[at..at + out.len()]);
    }

    // Puts bytes in place of those of the image from `at` on.
    #[inline]
    pub(super) fn patch(&mut self, at: usize, bytes: &[u8])
        requires { at + length bytes.now ≤ 1024 }
        ensures page { self.new.page ≡ self.old.page }
        ensures image { self.new.image ≡ patched self.old.image at bytes.now }
    {
        patch(&mut self.image, at, bytes);
    }
}

// The first n images are held no longer, and the others move down, once.
pub(super) fn drop_first<const CAP: usize>(held: &mut ArrayVec<Held, CAP>, n: usize)
    requires { n ≤ length held.old.items }
    ensures { held.new.items ≡ drop n held.old.items }
{
    let len = held.len();
    held.as_mut_slice().copy_within(n..len, 0);
    held.truncate(len - n);
}

// No image is held any longer.
pub(super) fn drop_all<const CAP: usize>(held: &mut ArrayVec<Held, CAP>)
    ensures { held.new.items ≡ [] }
{
    while held.pop().is_some() {
        // a blank each, where `clear` fills all their places in one long run
    }
}
