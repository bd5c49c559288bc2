// Why lines are not answered.
ghost use Rattle.std.specs.Prelude.{◌≡◌, ◌≢◌};
ghost use Rattle.alta_embed.specs.Refusals.{code_of, detail_of, refusal_for};

use alta_session::Status;
use std::alloc::AllocError;

/// Why lines are not answered.
#[derive(Clone, Copy, Debug, PartialEq, Eq, Drop)]
pub enum Refusal {
    /// There was no memory.
    NoMemory,
    /// The index breaks a rule of its format, first at this place.
    Damaged { place: u64 },
    /// The bytes hold no index.
    NoIndex,
    /// What a line writes needs this many bytes, and the greatest gap below the limit has that many.
    Full { need: u64, gap: u64 },
    /// The lines have more than 2 to the 40th bytes.
    TooLong,
    /// The replies have this many bytes, and there is less room.
    NoRoom { need: u64 },
}

impl Refusal {
    /// The number that says which refusal it is: less than zero, and up to -9 the exit code of the program, negated.
    pub fn code(&self) -> i64
        ensures { result ≡ code_of self.now }
    {
        match self {
            Refusal::NoMemory => -5,
            Refusal::Damaged { .. } => -6,
            Refusal::NoIndex => -7,
            Refusal::Full { .. } => -8,
            Refusal::TooLong => -9,
            Refusal::NoRoom { .. } => -11,
        }
    }

    /// The number that goes with it: the place of the damage, or how many bytes are needed, or 0.
    pub fn detail(&self) -> u64
        ensures { result ≡ detail_of self.now }
    {
        match self {
            Refusal::Damaged { place } => *place,
            Refusal::Full { need, .. } => *need,
            Refusal::NoRoom { need } => *need,
            Refusal::NoMemory | Refusal::NoIndex | Refusal::TooLong => 0,
        }
    }
}

impl From<AllocError> for Refusal {
    ghost use Rattle.alta_embed.specs.declared.refusal.Refusal.TheVariants.{NoMemory};

    ghost from_gives = { λ _ e. e ≡ NoMemory };

    fn from(_: AllocError) -> Self {
        Refusal::NoMemory
    }
}

// The refusal that a run over a console and a disk in memory ends with, or none where it is done.
pub(crate) fn refusal_of(status: Status) -> Option<Refusal>
    requires usage { status ≢ Status.Usage }
    requires exists { status ≢ Status.Exists }
    ensures { result ≡ refusal_for status }
{
    match status {
        Status::Done => None,
        Status::Damaged { place } => Some(Refusal::Damaged { place }),
        Status::NoRoot => Some(Refusal::NoIndex),
        Status::Full { need, gap } => Some(Refusal::Full { need, gap }),
        Status::TooLong => Some(Refusal::TooLong),
        Status::Memory | Status::DiskFault | Status::TakeFault | Status::GiveFault => {
            Some(Refusal::NoMemory)
        }
        Status::Usage | Status::Exists => unreachable!(),
    }
}
