// Makes records.
ghost use Rattle.std.specs.Prelude.{◌≡◌, ◌<◌, ◌^◌, ◌++◌, length, IfOk, OnOk};
ghost use Rattle.alta_journal.specs.Entry.{KeepTexts, KeepsRules, IsTyped, is_old as is_old_entry, payload_of, texts_of, measured};
ghost use Rattle.alta_journal.specs.Lent.{entry_of};
ghost use Rattle.alta_journal.specs.Record.{Record, body_of};

use crate::places::{ADD, DELETE, PAYLOAD_BYTES, REPLACE};
use crate::{LentEntry, Ready};
use alta_layout::GATE_CLOSED;
use std::alloc::{AllocError, Global};

/// Makes the record of an entry: all that an append writes, so that the append itself takes no memory. The entry
/// keeps the rules of a record: its name is 1 to 64 graphic ASCII bytes, its title has no tab, title and body have no
/// newline, and together they have at most [`TEXTS_BYTES`](crate::TEXTS_BYTES). A root of version 1 may have it only where
/// [`is_old`](crate::is_old) says so.
pub fn ready(alloc: Global, entry: &LentEntry<'_>) -> Result<Ready, AllocError>
    requires { KeepsRules (entry_of entry.now) }
    ensures { IfOk result (λ r. r ≡ record { entry = entry_of entry.now; bytes = body_of (entry_of entry.now) }) }
{
    let payload = payload_len(entry);
    let mut bytes = Vec::with_capacity(alloc, 5 + payload)?;
    bytes.extend_from_slice(&(payload as u32).to_be_bytes())?;
    put_payload(&mut bytes, entry)?;
    bytes.push(GATE_CLOSED)?;
    Ok(Ready { bytes })
}

/// Whether a root of version 1 may have this entry in its journal: it is an add or a delete, and its payload has at most
/// [`PAYLOAD_BYTES`](crate::PAYLOAD_BYTES).
pub fn is_old(entry: &LentEntry<'_>) -> bool
    requires { KeepsRules (entry_of entry.now) }
    ensures { result ≡ is_old_entry (entry_of entry.now) }
{
    match entry {
        LentEntry::Add { .. } => payload_len(entry) as u64 <= PAYLOAD_BYTES,
        LentEntry::Delete { .. } => true,
        LentEntry::Replace { .. } => false,
    }
}

// How many bytes the payload of an entry has.
#[tactic(auto, using(crate::proofs::Spelling::lengths))]
fn payload_len(entry: &LentEntry<'_>) -> usize
    requires { KeepsRules (entry_of entry.now) }
    ensures len { result ≡ length (payload_of (entry_of entry.now)) }
    ensures short { result < 2 ^ 19 }
    ensures typed { IsTyped (entry_of entry.now) }
{
    match *entry {
        LentEntry::Add { name, title, body } => 10 + name.len() + title.len() + body.len(),
        LentEntry::Delete { number: _number } => 9,
        LentEntry::Replace {
            number: _number,
            name,
            title,
            body,
        } => 18 + name.len() + title.len() + body.len(),
    }
}

// Appends the payload of an entry.
#[tactic(auto, using(crate::proofs::Spelling::lengths), unfolding(alta_layout::specs::Wide::eight_bytes))]
fn put_payload(bytes: &mut Vec<u8>, entry: &LentEntry<'_>) -> Result<(), AllocError>
    requires { KeepsRules (entry_of entry.now) }
    ensures { OnOk result (bytes.new.items ≡ bytes.old.items ++ payload_of (entry_of entry.now)) }
{
    match entry {
        LentEntry::Add { name, title, body } => {
            bytes.push(ADD)?;
            put_texts(bytes, name, title, body)
        }
        LentEntry::Delete { number } => {
            bytes.push(DELETE)?;
            bytes.extend_from_slice(&number.to_be_bytes())
        }
        LentEntry::Replace {
            number,
            name,
            title,
            body,
        } => {
            bytes.push(REPLACE)?;
            bytes.extend_from_slice(&number.to_be_bytes())?;
            put_texts(bytes, name, title, body)
        }
    }
}

// Appends a name behind its length, and a title and a body behind theirs.
fn put_texts(bytes: &mut Vec<u8>, name: &str, title: &str, body: &str) -> Result<(), AllocError>
    requires { KeepTexts name.now title.now body.now }
    ensures { OnOk result (bytes.new.items ≡ bytes.old.items ++ texts_of name.now title.now body.now) }
{
    bytes.push(name.len() as u8)?;
    bytes.extend_from_slice(name.as_bytes())?;
    put_text(bytes, title)?;
    put_text(bytes, body)
}

// Appends a text behind its length.
#[tactic(auto, unfolding(crate::specs::Entry::four_bytes))]
fn put_text(bytes: &mut Vec<u8>, text: &str) -> Result<(), AllocError>
    requires { length text.now < 2 ^ 32 }
    ensures { OnOk result (bytes.new.items ≡ bytes.old.items ++ measured text.now) }
{
    bytes.extend_from_slice(&(text.len() as u32).to_be_bytes())?;
    bytes.extend_from_slice(text.as_bytes())
}
