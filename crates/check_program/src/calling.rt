// Calls of the program over a disk and a console in memory.
ghost use Rattle.std.specs.Prelude.{◌≡◌, ◌≤◌};

use alta_codec::Text;
use alta_console::MemoryConsole;
use alta_disk::MemoryDisk;
use alta_session::{Status, alta};
use std::alloc::{AllocError, Global};
use std::test::Fail;

pub(crate) const LIMIT: u64 = 1 << 40;

// Words with a bar between them.
fn words_of(alloc: Global, text: &str) -> Result<Vec<Text>, AllocError> {
    let mut words = Vec::new(alloc);
    for word in text.split('|') {
        words.push(Text::of(alloc, word)?)?;
    }
    Ok(words)
}

// Calls the program with these words, on a console that takes pieces of these sizes and of which these calls fail: the status, and
// what was given.
pub(crate) fn call(
    alloc: Global,
    disk: &mut MemoryDisk,
    words: &str,
    input: Vec<u8>,
    pieces: Vec<usize>,
    fail: Vec<u64>,
) -> Result<(Status, Vec<u8>), AllocError> {
    let mut console = MemoryConsole::new(alloc, input, pieces, fail);
    let words = words_of(alloc, words)?;
    let status = alta(alloc, &words, &mut console, disk);
    Ok((status, console.given().to_vec(alloc)?))
}

// The same on a console of which no call fails.
pub(crate) fn run(
    alloc: Global,
    disk: &mut MemoryDisk,
    words: &str,
    input: Vec<u8>,
) -> Result<(Status, Vec<u8>), AllocError> {
    call(alloc, disk, words, input, Vec::new(alloc), Vec::new(alloc))
}

// A disk with this content and at most so many bytes, of which the calls with these numbers fail, and with nothing pending.
pub(crate) fn disk_within(
    alloc: Global,
    content: Vec<u8>,
    limit: u64,
    fail: Vec<u64>,
) -> Result<MemoryDisk, Fail> {
    if content.len() as u64 > limit || limit > LIMIT {
        return Err("the content is too long".into());
    }
    Ok(MemoryDisk::new(alloc, content, limit, fail))
}

// Adds each part of a text, with ` / ` between two of them, as a line.
pub(crate) fn put_lines(out: &mut Vec<u8>, text: &str) -> Result<(), AllocError> {
    for line in text.split(" / ") {
        out.extend_from_slice(line.as_bytes())?;
        out.push(b'\n')?;
    }
    Ok(())
}
