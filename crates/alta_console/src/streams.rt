// The process's standard streams as a console, which tells no content.
ghost use Rattle.std.specs.Prelude.{◌≡◌, ◌<◌, ◌≤◌, None, length, IfOk};

use crate::Console;
use crate::tries::Tries;
use alta_codec::Failed;
use std::io;
use std::io::{ErrorKind, Read};
use std::rt::Clock;

/// The standard streams of a runtime. It tells neither its transcript nor its input, and counts its faults.
///
/// A take is one read straight into the caller's buffer and a give is one write straight from the caller's bytes: no
/// call copies bytes or takes memory, and after a give no byte stands in a buffer of the process. A call that a signal interrupts
/// is made again, and so is one at a stream that is not ready and does not wait itself, behind a wait of at most 32 milliseconds.
#[derive(Drop)]
pub struct StdConsole<R: Input> {
    rt: R,
    reader: R::Reader,
    take_faults: u64,
    give_faults: u64,
    fault: Option<io::Error>,
}

impl<R: Input + Print + Clock> StdConsole<R> {
    /// The console of this runtime, which it keeps, with no faults counted. It holds the one reader of the standard
    /// input through which it takes, so what a reader reads ahead is not lost between takes.
    pub fn new(rt: R) -> Self
        ensures take_faults { ⟦<StdConsole<R> as Console>⟧.take_faults result ≡ 0 }
        ensures give_faults { ⟦<StdConsole<R> as Console>⟧.give_faults result ≡ 0 }
    {
        let reader = rt.reader();
        StdConsole {
            rt,
            reader,
            take_faults: 0,
            give_faults: 0,
            fault: None,
        }
    }

    /// Why the last call failed that did; nothing where none has.
    pub fn fault(&self) -> Option<&io::Error> {
        self.fault.as_ref()
    }
}

// One read. It is made again where that is worth it.
fn read_some<R: Read>(reader: &mut R, clock: &impl Clock, buf: &mut [u8]) -> io::Result<usize>
    ensures { IfOk result (λ n. n ≤ length buf.new) }
{
    let mut tries = Tries::new();
    for _ in 0..u64::MAX {
        let answer = reader.read(buf);
        if !tries.is_worth_another(clock, &answer) {
            return answer;
        }
    }
    Err(ErrorKind::TimedOut.into())
}

// One write. One that takes no byte is a fault: made again it might never take one.
fn write_some<R: Print + Clock>(rt: &R, bytes: &[u8]) -> io::Result<usize>
    ensures some { IfOk result (λ n. 0 < n) }
    ensures within { IfOk result (λ n. n ≤ length bytes.now) }
{
    let mut tries = Tries::new();
    for _ in 0..u64::MAX {
        let answer = rt.write_some(bytes);
        if tries.is_worth_another(rt, &answer) {
            continue;
        }
        return match answer {
            Ok(0) => Err(ErrorKind::WriteZero.into()),
            answer => answer,
        };
    }
    Err(ErrorKind::TimedOut.into())
}

impl<R: Input + Print + Clock> Console for StdConsole<R> {
    ghost told = { λ _. None };

    ghost left = { λ _. None };

    ghost take_faults = { λ c. c.take_faults };

    ghost give_faults = { λ c. c.give_faults };

    fn take(&mut self, buf: &mut [u8]) -> Result<usize, Failed> {
        match read_some(&mut self.reader, &self.rt, buf) {
            Ok(n) => Ok(n),
            Err(error) => {
                self.take_faults = self.take_faults.saturating_add(1);
                self.fault = Some(error);
                Err(Failed)
            }
        }
    }

    fn give(&mut self, bytes: &[u8]) -> Result<usize, Failed> {
        match write_some(&self.rt, bytes) {
            Ok(n) => Ok(n),
            Err(error) => {
                self.give_faults = self.give_faults.saturating_add(1);
                self.fault = Some(error);
                Err(Failed)
            }
        }
    }
}
