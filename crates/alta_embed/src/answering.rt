// Lines answered on a copy of an index.
ghost use Rattle.std.specs.Prelude.{◌≡◌, ◌≢◌, ◌≤◌, ℕ, [], length, take, drop, IfOk, OnErr, IfErr};
ghost use Rattle.alta_console.specs.Memory.{transcript, input_left};
ghost use Rattle.alta_console.specs.Transcript.{given_in};
ghost use Rattle.alta_console.specs.declared.memory.MemoryConsole.{MemoryConsole};
ghost use Rattle.alta_disk.specs.Memory.{memory_state};
ghost use Rattle.alta_embed.specs.Answers.{Answers, PutsIn};

use crate::Refusal;
use crate::refusal::refusal_of;
use alta_console::MemoryConsole;
use alta_disk::MemoryDisk;
use alta_session::serve;
use std::alloc::{AllocError, Global};

/// The most bytes of lines.
pub const LINES_LIMIT: u64 = 1 << 40;

/// No index in memory is longer.
pub const INDEX_LIMIT: u64 = (1 << 63) - 1;

// A disk that holds a copy of an index.
fn disk_of(alloc: Global, index: &[u8]) -> Result<MemoryDisk, AllocError>
    ensures content { IfOk result (λ disk. (memory_state disk).content ≡ index.now) }
    ensures limit { IfOk result (λ disk. (memory_state disk).limit ≡ INDEX_LIMIT) }
{
    let content = index.to_vec(alloc)?;
    Ok(MemoryDisk::new(alloc, content, INDEX_LIMIT, Vec::new(alloc)))
}

// A console whose input is these lines.
fn console_of(alloc: Global, lines: &[u8]) -> Result<MemoryConsole, AllocError>
    ensures transcript { IfOk result (λ console. transcript console ≡ []) }
    ensures input { IfOk result (λ console. input_left console ≡ lines.now) }
{
    let input = lines.to_vec(alloc)?;
    Ok(MemoryConsole::new(alloc, input, Vec::new(alloc), Vec::new(alloc)))
}

// Answers the lines on a copy of the index: the console, which was given the replies.
fn run(alloc: Global, index: &[u8], lines: &[u8]) -> Result<MemoryConsole, Refusal>
    ensures answers { Answers index.now lines.now (λ (console : MemoryConsole). given_in (transcript console)) result }
    ensures roomy { IfErr result (λ refusal. (need : ℕ) → refusal ≢ Refusal.NoRoom need) }
{
    let mut disk = disk_of(alloc, index)?;
    let mut console = console_of(alloc, lines)?;
    let status = serve(alloc, &mut console, &mut disk, LINES_LIMIT);
    match refusal_of(status) {
        Some(refusal) => Err(refusal),
        None => Ok(console),
    }
}

// Puts replies at the front of a room, and answers how many bytes they have.
fn put(replies: &[u8], room: &mut [u8]) -> Result<usize, Refusal>
    ensures front { IfOk result (λ n. take n room.new ≡ replies.now) }
    ensures puts { PutsIn room.old room.new result }
    ensures err { IfErr result (λ refusal. refusal ≡ Refusal.NoRoom (length replies.now)) }
{
    let n = replies.len();
    if n > room.len() {
        return Err(Refusal::NoRoom { need: n as u64 });
    }
    room[..n].copy_from_slice(replies);
    Ok(n)
}

/// Answers command lines on a copy of an index, as [`alta_session::serve`], and puts the replies at the front of `room`. The result is how
/// many bytes they have. What lines change is gone with the copy.
///
/// # Errors
///
/// `NoIndex` where the bytes hold no index, `Damaged` where they break a rule of the format, `Full` where what a line writes has no place,
/// `TooLong` for lines of more than 2 to the 40th bytes, `NoRoom` where the replies have more bytes than the room, `NoMemory` where there
/// was no memory. After each the room is as it was.
pub fn answer(alloc: Global, index: &[u8], lines: &[u8], room: &mut [u8]) -> Result<usize, Refusal>
    ensures answers { Answers index.now lines.now (λ (n : ℕ). take n room.new) result }
    ensures puts { PutsIn room.old room.new result }
{
    match run(alloc, index, lines) {
        Ok(console) => put(console.given(), room),
        Err(refusal) => Err(refusal),
    }
}
