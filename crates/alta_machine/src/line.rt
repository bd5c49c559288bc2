// Lines that are refused.

/// How many bytes a line may have, without its newline.
pub const LINE_LIMIT: usize = 262_143;

/// Why a line is refused.
#[derive(Clone, Copy, Debug, Drop)]
pub enum LineFault {
    TooLong,
    NotUtf8,
    Unknown,
    Bad,
}
