// Going over all records of a file.
ghost use Rattle.std.specs.Prelude.{◌<◌};

use super::files::ShowFile;
use layout::Records;

// The records of a file that are yet to come: those left of a page, and those of the pages after it.
#[derive(Clone, Copy)]
pub struct Listing<'a> {
    pub(super) file: ShowFile<'a>,
    pub(super) page: usize,
    pub(super) records: Records<'a>,
    ghost within: { page < file.first.pages },
}
