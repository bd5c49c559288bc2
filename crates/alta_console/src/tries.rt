// When a call of a stream is made once more.

use std::io::ErrorKind;
use std::rt::Clock;
use std::time::Duration;
use std::{io, thread};

const LONGEST_WAIT: u64 = 32;

// The tries at one call, and how many milliseconds to wait before the next one where the stream is not ready.
#[derive(Drop)]
pub(crate) struct Tries {
    wait: u64,
}

impl Tries {
    pub(crate) fn new() -> Tries {
        Tries { wait: 1 }
    }

    // Whether the call is to be made once more: where a signal interrupted it, and, behind a wait, where the stream is not ready.
    // Each wait is twice as long as the one before, up to the longest.
    pub(crate) fn is_worth_another<T>(
        &mut self,
        clock: &impl Clock,
        answer: &io::Result<T>,
    ) -> bool {
        let Err(error) = answer else {
            return false;
        };
        match error.kind() {
            ErrorKind::Interrupted => true,
            ErrorKind::WouldBlock => {
                thread::sleep(clock, Duration::from_millis(self.wait));
                self.wait = self.wait.saturating_mul(2).min(LONGEST_WAIT);
                true
            }
            _ => false,
        }
    }
}
