// A record that is ready to be written, so that an append takes no memory.
ghost use Rattle.std.specs.Prelude.{◌≡◌};
ghost use Rattle.alta_journal.specs.Entry.{MayBeRecorded};
ghost use Rattle.alta_journal.specs.Record.{Record, body_of};

use std::marker::Model;

/// A record that is ready to be written. Contracts see it as its entry and the bytes that are written behind its
/// gate.
#[derive(Drop)]
pub struct Ready {
    pub(crate) bytes: Vec<u8>,
}

impl Model for Ready {
    ghost use Rattle.std.specs.Prelude.{◌≡◌};
    ghost use Rattle.alta_journal.specs.Entry.{MayBeRecorded};
    ghost use Rattle.alta_journal.specs.Record.{Record, body_of};
    ghost use Rattle.alta_journal.specs.Reading.{entry_of_body};

    ghost Value = { Record };

    ghost view = { λ r. record { entry = entry_of_body r.bytes.items; bytes = r.bytes.items } };

    ghost invariant = { λ r. MayBeRecorded 2 (entry_of_body r.bytes.items)
        × (r.bytes.items ≡ body_of (entry_of_body r.bytes.items)) };
}

impl Ready {
    /// What is written behind the gate: the payload behind its length, and the next gate, closed.
    pub fn bytes(&self) -> &[u8]
        ensures bytes { result.now ≡ body_of self.now.entry }
        ensures sound { MayBeRecorded 2 self.now.entry }
    {
        &self.bytes
    }
}
