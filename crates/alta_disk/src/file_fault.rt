// Which call of the system failed on a file, and why.
ghost use Rattle.std.specs.Prelude.{◌≡◌, Ok, IfOk};

use std::fmt::{Display, Formatter};
use std::{fmt, io};

/// A call of the system that failed on a file: its name, and the system's error, or this crate's words where the call's
/// answer is what is at fault. It is shown as both, with a colon between them.
#[derive(Clone, Copy, Debug)]
pub struct FileFault {
    pub call: &'static str,
    pub error: io::Error,
}

impl FileFault {
    // A fault that the system takes for none.
    pub(crate) fn of(call: &'static str, kind: io::ErrorKind, words: &str) -> FileFault {
        FileFault {
            call,
            error: io::Error::new(kind, words),
        }
    }
}

impl Display for FileFault {
    fn fmt<W: fmt::Write>(&self, f: &mut Formatter<W>) -> fmt::Result {
        write!(f, "{}: {}", self.call, self.error)
    }
}

// The answer of a call, and its name beside the error.
pub(crate) fn named<T>(call: &'static str, answer: io::Result<T>) -> Result<T, FileFault>
    ensures { IfOk result (λ x. answer ≡ Ok x) }
{
    match answer {
        Ok(x) => Ok(x),
        Err(error) => Err(FileFault { call, error }),
    }
}
