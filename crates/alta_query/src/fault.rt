// Faults in a query's text.
use alta_machine::Cause;
use std::alloc::{AllocError, AllocFailed};

/// Where a text is no query, and why.
#[derive(Clone, Copy, Debug, PartialEq, Eq)]
pub struct QueryFault {
    /// The byte of the text at which the fault is: the first of a token, or the text's length. For want of memory 0.
    pub place: usize,
    /// Why it is one.
    pub cause: Cause,
}

impl From<AllocError> for QueryFault {
    ghost use Rattle.std.specs.Prelude.{◌≡◌};
    ghost use Rattle.alta_machine.specs.declared.cause.Cause.TheVariants.{Memory};

    ghost from_gives = { λ _ e. e ≡ record { place = 0; cause = Memory } };

    fn from(_: AllocError) -> QueryFault {
        QueryFault {
            place: 0,
            cause: Cause::Memory,
        }
    }
}

impl<T: Drop> From<AllocFailed<T>> for QueryFault {
    ghost use Rattle.std.specs.Prelude.{◌≡◌};
    ghost use Rattle.alta_machine.specs.declared.cause.Cause.TheVariants.{Memory};

    ghost from_gives = { λ _ e. e ≡ record { place = 0; cause = Memory } };

    fn from(_: AllocFailed<T>) -> QueryFault {
        QueryFault {
            place: 0,
            cause: Cause::Memory,
        }
    }
}
