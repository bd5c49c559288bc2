// Why bytes spell no list.
ghost use Rattle.std.specs.Prelude.{◌≡◌};
ghost use Rattle.alta_postings.specs.Deltas.{cause_of};

use alta_codec::CodeFault;

/// Why bytes spell no list.
#[derive(Clone, Copy, Debug, PartialEq, Eq, Drop)]
pub enum StreamCause {
    /// The bytes end inside a number.
    Cut,
    /// A number is not in its shortest spelling.
    Long,
    /// A number is not below 2 to the 64th.
    Wide,
    /// A difference is 0.
    Zero,
    /// A location is not below `TOP`.
    Top,
}

/// The first number that shows that bytes spell no list.
#[derive(Clone, Copy, Debug, PartialEq, Eq, Drop)]
pub struct StreamFault {
    /// The place of the number's first byte.
    pub place: usize,
    /// What it breaks.
    pub cause: StreamCause,
}

/// The cause that a misspelt number is.
pub fn cause(fault: CodeFault) -> StreamCause
    ensures { result ≡ cause_of fault }
{
    match fault {
        CodeFault::Cut(_) => StreamCause::Cut,
        CodeFault::Long(_) => StreamCause::Long,
        CodeFault::Wide(_) => StreamCause::Wide,
    }
}
