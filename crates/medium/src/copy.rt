// Bytes as pages of 1,024.
ghost use Rattle.std.specs.Prelude.{◌≡◌, ◌/◌, true, length};
ghost use Rattle.octets.specs.Files.{page_at};
ghost use Rattle.octets.specs.Parts.{part};
ghost use Rattle.medium.specs.Meaning.{good};

// Copies the bytes of a page from byte `at` on into `out`.
pub(super) fn copy_run(bytes: &[u8], page: usize, at: usize, out: &mut [u8])
    requires { good (length bytes.now / 1024) page at (length out.old) ≡ true }
    ensures { out.new ≡ part (page_at bytes.now page) at (length out.old) }
{
    let start = page * 1024 + at;
    out.copy_from_slice(&bytes[start..start + out.len()]);
}
