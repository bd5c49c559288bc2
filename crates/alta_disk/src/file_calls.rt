// What is asked of the system about one file: each call with its name, where it fails.
ghost use Rattle.std.specs.Prelude.{◌≤◌, ◌+◌, ◌^◌, IfOk};
ghost use Rattle.alta_layout.specs.declared.places.TheConstants.{HEAD_BYTES};

use crate::file_fault::{FileFault, named};
use alta_codec::Text;
use alta_layout::{HEAD_BYTES, SLOTS_BYTES, START_A, START_B};
use std::fs::{self, File, Metadata, OpenOptions, TryLockError};
use std::io;
use std::io::ErrorKind;
use std::os::unix::fs::{FileExt, MetadataExt};
use std::rt::Files;

pub(crate) const FILE_LIMIT: u64 = 1 << 40;

const CHUNK_BYTES: u64 = 65_536;

// Opens the file, and makes it where it is missing.
pub(crate) fn open_file<R: Files<File = File>>(rt: &R, path: &Text) -> Result<File, FileFault> {
    let opened = OpenOptions::new()
        .read(true)
        .write(true)
        .create(true)
        .open(rt, path.as_str());
    named("open", opened)
}

// Locks the whole file for this opening of it alone.
pub(crate) fn lock(file: &File) -> Result<(), FileFault> {
    match file.try_lock() {
        Ok(()) => Ok(()),
        Err(TryLockError::Error(error)) => named("flock", Err(error)),
        Err(TryLockError::WouldBlock) => Err(FileFault::of(
            "flock",
            ErrorKind::WouldBlock,
            "another program has the file open",
        )),
    }
}

// Makes the name of a file outlast a stop. Of a link it is the name that the link leads to.
pub(crate) fn sync_folder<R: Files<File = File> + AllocGlobal>(
    rt: &R,
    path: &Text,
) -> Result<(), FileFault> {
    let mut folder = named("realpath", fs::canonicalize(rt, path.as_str()))?;
    folder.pop();
    let opened = named("open of the folder", File::open(rt, folder.as_str()))?;
    named("fsync of the folder", opened.sync_all())
}

// What the system knows of the file. A call that a signal interrupts is tried again.
fn status(file: &File) -> Result<Metadata, FileFault> {
    for _ in 0..u64::MAX {
        match file.metadata() {
            Err(error) if error.kind() == ErrorKind::Interrupted => {}
            answer => return named("statx", answer),
        }
    }
    named("statx", Err(ErrorKind::Interrupted.into()))
}

// The length in bytes of a plain file that is no longer than the limit. Of a device the system tells no length, so none is taken.
pub(crate) fn plain_length(file: &File) -> Result<u64, FileFault>
    ensures { IfOk result (λ n. n ≤ 2 ^ 40) }
{
    let found = status(file)?;
    if !found.is_file() {
        return Err(FileFault::of("open", ErrorKind::InvalidInput, "no plain file"));
    }
    let n = found.len();
    if n > FILE_LIMIT {
        return named("statx", Err(ErrorKind::FileTooLarge.into()));
    }
    Ok(n)
}

// Fails where no name leads to the file any more: what is written into it is lost with this process.
pub(crate) fn must_have_name(file: &File) -> Result<(), FileFault> {
    if status(file)?.nlink() == 0 {
        let words = "the file was deleted, or another took its place";
        return Err(FileFault::of("statx", ErrorKind::NotFound, words));
    }
    Ok(())
}

// Makes all that was written firm.
//
// Where a sync fails, Linux takes the pages as written all the same: memory keeps their new bytes, each read gives these, and no
// later sync writes them. So the head is written again then, and the next sync, of this run or of a later one, makes it firm or fails
// too. Behind the head nothing has to be: what stands there counts only by a gate of the head, and a gate is opened only behind a sync
// that was done. Where a stop cuts the writes short, the head has what it might have had before, as each byte is as it was.
pub(crate) fn sync_data(file: &File) -> Result<(), FileFault> {
    let synced = file.sync_data();
    if synced.is_err() {
        let _ = write_again(file, 0, HEAD_BYTES);
    }
    named("fdatasync", synced)
}

// Makes firm what a write to this place goes by, where the file has a head: both slots, and where the place lies in a half of the
// journal the records before it, up to the closed gate behind which it is written. A program that was killed inside of a sync that
// failed could not write the head again, and the system tells of that sync no more.
pub(crate) fn renew_head(file: &File, at: u64) -> Result<(), FileFault> {
    if plain_length(file)? < HEAD_BYTES {
        return Ok(());
    }
    named("pwrite64", write_again(file, 0, SLOTS_BYTES))?;
    if at < HEAD_BYTES {
        let start = if at < START_B { START_A } else { START_B };
        let records = at.saturating_sub(start + 1);
        named("pwrite64", write_again(file, start, records))?;
    }
    sync_data(file)
}

// Writes what a read gives of so many bytes of the head to their place, up to the first chunk that can't be read or written.
fn write_again(file: &File, start: u64, len: u64) -> io::Result<()>
    requires { start + len ≤ HEAD_BYTES }
{
    let mut bytes = [0; CHUNK_BYTES as usize];
    for chunk in 0..len.div_ceil(CHUNK_BYTES) {
        let behind = chunk * CHUNK_BYTES;
        let part = &mut bytes[..CHUNK_BYTES.min(len - behind) as usize];
        file.read_exact_at(part, start + behind)?;
        file.write_all_at(part, start + behind)?;
    }
    Ok(())
}
