// Places in a stream, which contracts see as a list.

use alta_codec::Listed;

/// Places in a stream.
pub type Places = Listed<u64>;
