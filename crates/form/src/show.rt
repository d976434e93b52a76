// How the fields of a value are shown.
ghost use Rattle.std.specs.Fmt.{WritesOnOk};
ghost use Rattle.form.specs.Texts.{field_text};

use std::fmt;

// A field that stands: a blank, its name and its number.
pub(super) fn show_field<W: fmt::Write>(
    f: &mut fmt::Formatter<W>,
    name: &str,
    value: Option<u32>,
) -> fmt::Result
    ensures { WritesOnOk W.write_str_gives f.old result (field_text name.now value) f.new }
{
    match value {
        Some(n) => write!(f, " {name}={n}"),
        None => Ok(()),
    }
}
