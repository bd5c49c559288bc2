//! An index in memory that answers command lines, for callers that are not Rattle: C, Python, a page in a browser.
#![tactic(auto)]

ghost use Rattle.std.specs.Prelude.{◌≡◌, ℕ, pos, take};
ghost use Rattle.alta_embed.specs.Replies.{replies_to};
ghost use Rattle.alta_embed.specs.Returns.{Returns};
ghost use Rattle.alta_machine.specs.declared.document.State.{State};
ghost use Rattle.alta_meaning.specs.Standing.{StandsFor};

mod answering;
mod refusal;

pub use answering::answer;
pub use refusal::Refusal;
use std::alloc::Global;

/// Answers command lines on a copy of an index: see [`answer`]. The result is the number of bytes of replies, which stand at the front of
/// `replies`, or less than zero: the code of a refusal. `detail` is then the number that goes with it, and else 0.
///
/// Where the bytes of the index stand for a state, the replies are those of the abstract machine to the lines from that state on.
/// The bytes handed in are shared, so that no call changes them.
#[unsafe(no_mangle)]
pub extern "C" fn alta_embed_answer(
    alloc: Global,
    index: &[u8],
    lines: &[u8],
    replies: &mut [u8],
    detail: &mut u64,
) -> i64
    ensures replies { (s : State) (n : ℕ) → StandsFor s index.now → result ≡ pos n
        → take n replies.new ≡ replies_to s lines.now }
    ensures returns { Returns index.now lines.now replies.old replies.new result detail.new }
{
    match answer(alloc, index, lines, replies) {
        Ok(n) => {
            *detail = 0;
            n as i64
        }
        Err(refusal) => {
            *detail = refusal.detail();
            refusal.code()
        }
    }
}
