// The value of a record.
ghost use Rattle.std.specs.Prelude.{◌≤◌, length};

// A value that a record can have: it has at most 200 bytes.
#[derive(Clone, Copy)]
pub struct Value<'a> {
    pub bytes: &'a [u8],
    ghost short: { length bytes.now ≤ 200 },
}
