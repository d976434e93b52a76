// Parts of a run of bytes, and the numbers in them.
#![tactic(auto)]

ghost use Rattle.std.specs.Prelude.{◌≡◌, ◌+◌, ◌^◌, ◌<◌, ◌≤◌, length};
ghost use Rattle.octets.specs.Parts.{part, patched};
ghost use Rattle.octets.specs.Numbers.{big, size, spell};

// How many bytes a number takes.
#[derive(Clone, Copy, PartialEq, Eq, Debug)]
pub enum Width {
    One,
    Two,
    Four,
}

impl Width {
    // The width as a count of bytes.
    pub fn size(self) -> usize
        ensures { result ≡ size self }
    {
        match self {
            Width::One => 1,
            Width::Two => 2,
            Width::Four => 4,
        }
    }
}

// The n bytes from byte `at` on, or as many of them as there are.
pub fn part(bytes: &[u8], at: usize, n: usize) -> &[u8]
    ensures { result.now ≡ part bytes.now at n }
{
    let start = at.min(bytes.len());
    let end = start + n.min(bytes.len() - start);
    &bytes[start..end]
}

// The number that bytes from `at` on spell, most significant byte first.
pub fn number(bytes: &[u8], at: usize, width: Width) -> u32
    ensures value { result ≡ big (part bytes.now at (size width)) }
    ensures bound { result < 256 ^ size width }
{
    // tried as a fold: the closure would have to be shown to keep the number in range
    let mut n: u32 = 0;
    for b in part(bytes, at, width.size()) {
        n = n * 256 + u32::from(*b);
    }
    n
}

// Puts bytes in place of those from `at` on.
pub fn patch(bytes: &mut [u8], at: usize, new: &[u8])
    requires { at + length new.now ≤ length bytes.old }
    ensures { bytes.new ≡ patched bytes.old at new.now }
{
    bytes[at..at + new.len()].copy_from_slice(new);
}

// Spells a number in place of the bytes from `at` on, most significant byte first.
pub fn write_number(bytes: &mut [u8], at: usize, width: Width, n: u32)
    requires { at + size width ≤ length bytes.old }
    ensures { bytes.new ≡ patched bytes.old at (spell (size width) n) }
{
    let [a, b, c, d] = n.to_be_bytes();
    match width {
        Width::One => patch(bytes, at, &[d]),
        Width::Two => patch(bytes, at, &[c, d]),
        Width::Four => patch(bytes, at, &[a, b, c, d]),
    }
}
