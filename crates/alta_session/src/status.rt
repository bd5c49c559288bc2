// How a run ended, its exit code and its line.
ghost use Rattle.std.specs.Prelude.{◌≡◌, IfOk};
ghost use Rattle.alta_session.specs.Status.{code_of, line_of, EndsRun, status_for};

use alta_codec::Text;
use alta_store::StoreFault;
use std::alloc::{AllocError, Global};

/// How a call of the program ended.
#[derive(Clone, Copy, Debug, PartialEq, Eq)]
pub enum Status {
    /// The input was read to its end and every reply was given, or the index was made.
    Done,
    /// The words are none of those that the program knows. Nothing was called.
    Usage,
    /// A call of the disk failed.
    DiskFault,
    /// The input could not be read.
    TakeFault,
    /// The output could not be written.
    GiveFault,
    /// There was no memory left.
    Memory,
    /// The content of the disk breaks a rule of the format, first at this place.
    Damaged { place: u64 },
    /// The disk has no index.
    NoRoot,
    /// What has to be written needs this many bytes, and the greatest gap has that many.
    Full { need: u64, gap: u64 },
    /// The input has more bytes than it may have.
    TooLong,
    /// The disk has an index already.
    Exists,
}

impl Status {
    /// The exit code.
    pub fn code(&self) -> u8
        ensures { result ≡ code_of self.now }
    {
        match self {
            Status::Done => 0,
            Status::Usage => 1,
            Status::DiskFault => 2,
            Status::TakeFault => 3,
            Status::GiveFault => 4,
            Status::Memory => 5,
            Status::Damaged { .. } => 6,
            Status::NoRoot => 7,
            Status::Full { .. } => 8,
            Status::TooLong => 9,
            Status::Exists => 10,
        }
    }
}

/// The line that is printed where the code is not 0, without its newline. It is empty for `Done`.
///
/// # Errors
///
/// `AllocError` where there is no memory for it.
pub fn status_line(alloc: Global, status: &Status) -> Result<Text, AllocError>
    ensures { IfOk result (λ line. line ≡ line_of status.now) }
{
    match status {
        Status::Done => Text::of(alloc, ""),
        Status::Usage => Text::of(alloc, "alta: usage: alta_cli PATH init | run | demo N"),
        Status::DiskFault => Text::of(alloc, "alta: disk fault"),
        Status::TakeFault => Text::of(alloc, "alta: input fault"),
        Status::GiveFault => Text::of(alloc, "alta: output fault"),
        Status::Memory => Text::of(alloc, "alta: out of memory"),
        Status::Damaged { place } => damaged_line(alloc, *place),
        Status::NoRoot => Text::of(alloc, "alta: no index"),
        Status::Full { need, gap } => full_line(alloc, *need, *gap),
        Status::TooLong => Text::of(alloc, "alta: input too long"),
        Status::Exists => Text::of(alloc, "alta: index exists"),
    }
}

fn damaged_line(alloc: Global, place: u64) -> Result<Text, AllocError>
    ensures { IfOk result (λ line. line ≡ line_of (Status.Damaged place)) }
{
    let line = format!(in alloc; "alta: damaged at {place}")?;
    Ok(Text::from_string(line))
}

fn full_line(alloc: Global, need: u64, gap: u64) -> Result<Text, AllocError>
    ensures { IfOk result (λ line. line ≡ line_of (Status.Full need gap)) }
{
    let line = format!(in alloc; "alta: full, need {need}, greatest gap {gap}")?;
    Ok(Text::from_string(line))
}

// The status of a run that a fault of the store ends.
pub(crate) fn status_of(fault: StoreFault) -> Status
    requires { EndsRun fault }
    ensures { result ≡ status_for fault }
{
    match fault {
        StoreFault::Disk => Status::DiskFault,
        StoreFault::Memory => Status::Memory,
        StoreFault::Damaged(place) => Status::Damaged { place },
        StoreFault::NoRoot => Status::NoRoot,
        StoreFault::Full { need, gap } => Status::Full { need, gap },
        StoreFault::Taken | StoreFault::Missing | StoreFault::Numbers => unreachable!(),
    }
}
