// Why a medium refuses.
ghost use Rattle.std.specs.Prelude.{Some};
ghost use Rattle.medium.specs.Texts.{fault_text};

use std::error::Error;
use std::fmt;

// A bad run is empty, is not whole words, passes the page's end or names a page that is not there: nothing has changed. A
// stopped medium refuses every good run and every settle, from then on.
#[derive(Clone, Copy, PartialEq, Eq, Debug)]
pub enum MediumFault {
    BadRun,
    Stopped,
}

impl fmt::Display for MediumFault {
    ghost output = { λ f. Some (fault_text f) };

    fn fmt<W: fmt::Write>(&self, f: &mut fmt::Formatter<W>) -> fmt::Result {
        f.write_str(match self {
            MediumFault::BadRun => "bad run",
            MediumFault::Stopped => "stopped",
        })
    }
}

impl Error for MediumFault {}
