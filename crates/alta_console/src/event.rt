// One event of a transcript.
use alta_codec::Bytes;

/// What one call that did not fail did to a console. A transcript is a list of these, in order.
#[derive(Drop)]
pub enum Event {
    /// A piece of input was taken. It is not empty.
    Taken(Bytes),
    /// A take found the end of the input.
    Ended,
    /// A piece of output was given. It is not empty.
    Given(Bytes),
}
