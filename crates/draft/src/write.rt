// Writing a record.
ghost use Rattle.std.specs.Prelude.{◌≡◌, ◌+◌, length};
ghost use Rattle.draft.specs.Images.{record_bytes};

use octets::{Width, patch, write_number};

// Writes a record over bytes that it fills: the key's four bytes, then the value.
pub(super) fn write_record(out: &mut [u8], key: u32, value: &[u8])
    requires { length out.old ≡ 4 + length value.now }
    ensures { out.new ≡ record_bytes key value.now }
{
    write_number(out, 0, Width::Four, key);
    patch(out, 4, value);
}
