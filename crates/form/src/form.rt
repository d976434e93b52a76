// What a record form is, and what it must keep.
ghost use Rattle.std.specs.Prelude.{◌≡◌, ℕ, ◌≤◌, List, length, Ok, Result};
ghost use Rattle.octets.specs.Parts.{Bytes, patched};
ghost use Rattle.form.specs.declared.form.BadByte.{BadByte};

// Refusal 16: bytes that are not of the form, with the first byte that is bad.
#[derive(Clone, Copy, PartialEq, Eq, Debug)]
pub struct BadByte {
    pub at: usize,
}

// Refusal 17: a field outside its range, with the lowest bit of such a field.
#[derive(Clone, Copy, PartialEq, Eq, Debug)]
pub struct BadField {
    pub bit: usize,
}

impl BadByte {
    pub const NUMBER: u8 = 16;

    // The refusal's number.
    pub fn number(&self) -> u8
        ensures { result ≡ 16 }
    {
        Self::NUMBER // bytes that are not of the form
    }
}

impl BadField {
    pub const NUMBER: u8 = 17;

    // The refusal's number.
    pub fn number(&self) -> u8
        ensures { result ≡ 17 }
    {
        Self::NUMBER // a field outside its range
    }
}

// A form of record: its values go to bytes and back unchanged, and no other bytes pass for them.
pub trait RecordForm: Sized {
    // The bytes of a value.
    ghost bytes: { Self → List ℕ };

    // The value that bytes stand for, or their first bad byte.
    ghost reads: { List ℕ → Result Self BadByte };

    // Puts a value's bytes at the start of `out` and says how many they are; the rest of `out` stays.
    // The caller lends the buffer: that the rest of it stays is promised, so no value with a length is given back.
    fn write(&self, out: &mut [u8; 200]) -> usize
        ensures count { result ≡ length (bytes self.now) }
        ensures after { out.new ≡ patched out.old 0 (bytes self.now) };

    // Reads bytes as a value.
    fn read(value: &[u8]) -> Result<Self, BadByte>
        ensures { result ≡ reads value.now };

    ghost short: { (v : Self) → length (bytes v) ≤ 200 };

    ghost there: { (v : Self) → reads (bytes v) ≡ Ok v };

    ghost back: { (b : List ℕ) (v : Self) → Bytes b → reads b ≡ Ok v → bytes v ≡ b };
}
