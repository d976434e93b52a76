// Forms of four optional numbers: what each says of itself, and what all do alike.
ghost use Rattle.std.specs.Prelude.{◌≡◌, ℕ, ◌<◌, true, List, length, map, Option};
ghost use Rattle.std.specs.Fmt.{WritesOnOk};
ghost use Rattle.octets.specs.Parts.{patched};
ghost use Rattle.form.specs.declared.field.Field.{Field};
ghost use Rattle.form.specs.Fields.{all_fit, encoded, decoded, read_as, Makes};
ghost use Rattle.form.specs.FormLaws.{Listed};
ghost use Rattle.form.specs.RoundTrips.{wide};
ghost use Rattle.form.specs.Texts.{fields_text};

use super::field::Field;
use super::form::{BadByte, BadField};
use super::show::show_field;
use super::walk::{check_ranges, read_fields, write_fields};
use std::fmt;

// A value of four optional numbers, each in the range of its field.
pub trait Fielded: Sized {
    // The bits of the map that name the form, above those of the fields.
    ghost TOP: { ℕ };

    const TOP: u8;

    // The fields, lowest bit first.
    ghost FIELDS: { List Field };

    const FIELDS: [Field; 4];

    // The name of the form, and those of its fields.
    ghost name: { List ℕ };

    ghost names: { List (List ℕ) };

    // The numbers of a value.
    ghost values: { Self → List (Option ℕ) };

    // The value of a list of numbers, where it is one.
    ghost of: { List (Option ℕ) → Option Self };

    fn name() -> &'static str
        ensures { result.now ≡ name };

    fn names() -> [&'static str; 4]
        ensures { map (λ n. n.now) result ≡ names };

    fn values(&self) -> [Option<u32>; 4]
        ensures { result ≡ values self.now };

    // The value of numbers in range; `from_values` tests them first.
    fn made(numbers: [Option<u32>; 4]) -> Self
        requires { all_fit FIELDS numbers ≡ true }
        ensures { values result ≡ numbers };

    // The map is one byte.
    ghost room: { TOP < 16 };

    ghost four: { length FIELDS ≡ 4 };

    // The bytes of a field have room for its greatest number.
    ghost widths: { wide FIELDS ≡ true };

    // Values and lists of four numbers in range go over into each other.
    ghost listed: { Listed FIELDS values of };
}

// The value of these numbers, or the lowest bit whose number is out of range.
pub fn from_values<V: Fielded>(numbers: [Option<u32>; 4]) -> Result<V, BadField>
    ensures { Makes V.FIELDS V.values numbers result }
{
    check_ranges(&V::FIELDS, &numbers)?;
    Ok(V::made(numbers))
}

// Puts a value's bytes at the start of `out` and says how many they are.
pub(super) fn write<V: Fielded>(v: &V, out: &mut [u8; 200]) -> usize
    ensures count { result ≡ length (encoded V.TOP V.FIELDS (V.values v.now)) }
    ensures after { out.new ≡ patched out.old 0 (encoded V.TOP V.FIELDS (V.values v.now)) }
{
    write_fields(V::TOP, &V::FIELDS, &v.values(), out)
}

// Reads bytes as a value.
pub(super) fn read<V: Fielded>(value: &[u8]) -> Result<V, BadByte>
    ensures { result ≡ read_as V.of (decoded V.TOP V.FIELDS value.now) }
{
    let numbers = read_fields(V::TOP, &V::FIELDS, value)?;
    Ok(V::made(numbers))
}

// The form's name, then the fields that stand.
pub(super) fn show<V: Fielded, W: fmt::Write>(v: &V, f: &mut fmt::Formatter<W>) -> fmt::Result
    ensures { WritesOnOk W.write_str_gives f.old result (fields_text V.name V.names (V.values v.now)) f.new }
{
    f.write_str(V::name())?;
    for (name, value) in V::names().iter().zip(&v.values()) {
        show_field(f, name, *value)?;
    }
    Ok(())
}
