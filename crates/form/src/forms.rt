// Several forms at once, told apart by a kind.
ghost use Rattle.std.specs.Prelude.{◌≡◌, ℕ, ◌≤◌, List, length, Ok, Result, refl};
ghost use Rattle.std.proofs.Common.{sym};
ghost use Rattle.octets.specs.Parts.{Bytes, patched};
ghost use Rattle.form.specs.Wraps.{reads_numbered};
ghost use Rattle.form.specs.Inverses.{ok_same};
ghost use Rattle.form.specs.declared.form.BadByte.{BadByte};

use super::form::BadByte;

// The values of several forms, so that one list can mix them. Each value has a kind, which names its form; what holds of a
// form holds of each kind.
pub trait Forms: Sized {
    // The names of the forms.
    type Kind: Copy;

    // The form of a value.
    ghost kind: { Self → Self.Kind };

    // The bytes of a value.
    ghost bytes: { Self → List ℕ };

    // The value that bytes stand for under the form of a kind, or their first bad byte.
    ghost reads: { Self.Kind → List ℕ → Result Self BadByte };

    // Puts a value's bytes at the start of `out` and says how many they are; the rest of `out` stays.
    // The caller lends the buffer: that the rest of it stays is promised, so no value with a length is given back.
    fn write(&self, out: &mut [u8; 200]) -> usize
        ensures count { result ≡ length (bytes self.now) }
        ensures after { out.new ≡ patched out.old 0 (bytes self.now) };

    // Reads bytes as a value of a kind.
    fn read(of: Self::Kind, value: &[u8]) -> Result<Self, BadByte>
        ensures { result ≡ reads of value.now };

    ghost short: { (v : Self) → length (bytes v) ≤ 200 };

    ghost there: { (v : Self) → reads (kind v) (bytes v) ≡ Ok v };

    ghost back: { (k : Self.Kind) (b : List ℕ) (v : Self) → Bytes b → reads k b ≡ Ok v → (kind v ≡ k) × (bytes v ≡ b) };
}

// Kinds that go by numbers, for callers who keep a kind as a byte.
// No TryFrom, as the library's Either cannot be given one here.
pub trait Numbered: Sized {
    // The number of a kind.
    ghost number: { Self → ℕ };

    // The kind with a number; where no kind has it, byte 0 is bad.
    ghost numbered: { ℕ → Result Self BadByte };

    // The kind with this number.
    fn numbered(of: u8) -> Result<Self, BadByte>
        ensures { result ≡ numbered of };

    ghost there: { (k : Self) → numbered (number k) ≡ Ok k };

    ghost back: { (n : ℕ) (k : Self) → numbered n ≡ Ok k → number k ≡ n };
}

// A number is its own kind, so that a family may have numbers for kinds.
impl Numbered for u8 {
    ghost number = { λ k. k };

    ghost numbered = { λ n. Ok n };

    ghost there = { λ k. refl };

    ghost back = { λ n k e. sym (ok_same n k e) };

    fn numbered(of: u8) -> Result<u8, BadByte> {
        Ok(of)
    }
}

// Reads bytes as a value of the kind with this number.
pub fn read_numbered<F: Forms>(of: u8, value: &[u8]) -> Result<F, BadByte>
where
    F::Kind: Numbered,
    ensures { result ≡ reads_numbered F.Kind.numbered F.reads of value.now }
{
    F::read(F::Kind::numbered(of)?, value)
}
