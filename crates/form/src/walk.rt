// The walk over a bit map and its fields, which forms of optional fields share.
ghost use Rattle.std.specs.Prelude.{◌≡◌, ◌+◌, ◌*◌, ◌^◌, ◌<◌, ◌≤◌, true, length, not, zip, Some, None, Ok, Err, MatchResult, IfOk};
ghost use Rattle.std.specs.List.{position_from};
ghost use Rattle.octets.specs.Parts.{patched};
ghost use Rattle.form.specs.Fields.{fits, all_fit, lowest_bad, bit_map, field_bytes, encoded, field_read, decoded};

use super::field::Field;
use super::form::{BadByte, BadField};
use octets::{number, write_number};

// Whether a number is in the range of its field; an absent one is.
pub(super) fn in_range(field: Field, value: Option<u32>) -> bool
    ensures { result ≡ fits field value }
{
    value.is_none_or(|n| (field.low..=field.high).contains(&n))
}

// The bit of the first number out of its range.
fn lowest_bad<const N: usize>(fields: &[Field; N], values: &[Option<u32>; N]) -> Option<usize>
    ensures { result ≡ position_from (λ p. not (fits p.0 p.1)) 0 (zip fields.now values.now) }
{
    fields
        .iter()
        .zip(values)
        .position(|(field, value)| !in_range(*field, *value))
}

// Refuses numbers of which one is out of its range, by the lowest bit of such a number.
pub(super) fn check_ranges<const N: usize>(
    fields: &[Field; N],
    values: &[Option<u32>; N],
) -> Result<(), BadField>
    ensures lowest { MatchResult result (λ _. lowest_bad 0 fields.now values.now ≡ None) (λ e. lowest_bad 0 fields.now values.now ≡ Some e.bit) }
    ensures fit { IfOk result (λ _. all_fit fields.now values.now ≡ true) }
{
    match lowest_bad(fields, values) {
        Some(bit) => Err(BadField { bit }),
        None => Ok(()),
    }
}

// The bit map: a bit for each number, set where it is there, below `top`, which names the form.
fn bit_map<const N: usize>(top: u8, values: &[Option<u32>; N]) -> u8
    requires { (top + 1) * 2 ^ N ≤ 256 }
    ensures { result ≡ bit_map top values.now }
{
    // tried as a fold: the closure would have to be shown to keep the map in range
    let mut map = top;
    for value in values.iter().rev() {
        map = 2 * map + u8::from(value.is_some());
    }
    map
}

// Puts a field's bytes from `at` on, and gives the byte after them.
fn write_field(out: &mut [u8; 200], at: usize, field: Field, value: Option<u32>) -> usize
    requires { at + 4 ≤ 200 }
    ensures end { result ≡ at + length (field_bytes field value) }
    ensures after { out.new ≡ patched out.old at (field_bytes field value) }
{
    match value {
        Some(n) => {
            write_number(out, at, field.width, n);
            at + field.width.size()
        }
        None => at,
    }
}

// Puts a value's bytes at the start of `out` and says how many they are. `top` names the form: the map's bits above those of the fields.
pub(super) fn write_fields<const N: usize>(
    top: u8,
    fields: &[Field; N],
    values: &[Option<u32>; N],
    out: &mut [u8; 200],
) -> usize
    requires { (top + 1) * 2 ^ N ≤ 256 }
    ensures count { result ≡ length (encoded top fields.now values.now) }
    ensures after { out.new ≡ patched out.old 0 (encoded top fields.now values.now) }
{
    out[0] = bit_map(top, values);
    let mut at = 1;
    for (field, value) in fields.iter().zip(values) {
        at = write_field(out, at, *field, *value);
    }
    at
}

// Reads a field from `at` on where it is there: its number and the byte after it, or its bad byte.
fn read_field(
    value: &[u8],
    field: Field,
    there: bool,
    at: usize,
) -> Result<(Option<u32>, usize), BadByte>
    requires { at ≤ length value.now }
    ensures { MatchResult result (λ x. field_read value.now field there at ≡ Ok x) (λ e. field_read value.now field there at ≡ Err e.at) }
{
    if !there {
        return Ok((None, at));
    }
    let size = field.width.size();
    if value.len() - at < size {
        return Err(BadByte { at: value.len() });
    }
    let n = Some(number(value, at, field.width));
    if !in_range(field, n) {
        return Err(BadByte { at });
    }
    Ok((n, at + size))
}

// The fields of a value, or its first bad byte.
pub(super) fn read_fields<const N: usize>(
    top: u8,
    fields: &[Field; N],
    value: &[u8],
) -> Result<[Option<u32>; N], BadByte>
    requires { N < 8 }
    ensures { MatchResult result (λ vs. decoded top fields.now value.now ≡ Ok vs) (λ e. decoded top fields.now value.now ≡ Err e.at) }
{
    if value.is_empty() || value[0] >> N != top {
        return Err(BadByte { at: 0 });
    }
    let mut values = [None; N];
    let mut left = value[0];
    let mut at = 1;
    // by bit; tried by elements that are lent: a proof knows nothing of them once they are back
    for (bit, field) in fields.iter().enumerate() {
        let (number, end) = read_field(value, *field, left % 2 == 1, at)?;
        values[bit] = number;
        at = end;
        left /= 2;
    }
    if at != value.len() {
        return Err(BadByte { at });
    }
    Ok(values)
}
