// A disk over a real file, of which only the counts and the limit are told.
// `fdatasync` is enough for a sync, as it writes the length too. Behind the opening and the first write each call is one `statx`,
// `pread64` or `pwrite64`, and a sync is one `fdatasync` and one `statx`.
ghost use Rattle.std.specs.Prelude.{◌≡◌, ◌≤◌, ◌+◌, ◌-◌, ◌^◌, min, length, IfOk, OnOk};
ghost use Rattle.alta_codec.specs.Faults.{Rose};
ghost use Rattle.alta_disk.specs.Calls.{Charges};
ghost use Rattle.alta_disk.specs.Disk.{Same, Passes};
ghost use Rattle.alta_disk.specs.Untold.{untold, untold_lawful};

use crate::file_calls::{
    FILE_LIMIT, lock, must_have_name, open_file, plain_length, renew_head, sync_data, sync_folder,
};
use crate::file_fault::named;
use crate::{Disk, Failed, FileFault};
use alta_codec::Text;
use std::fs::File;
use std::io::ErrorKind;
use std::os::unix::fs::FileExt;
use std::rt::Files;

/// A plain file as a disk, of at most 2^40 bytes. It is opened at the first call, and made where it is missing. It is locked
/// for this disk alone as long as it is open, by the system's advisory lock on whole files.
///
/// The folder is synced at the opening of a file that is empty, so that a stop loses no file that this process or an earlier one
/// made. Of a link it is the folder in which the file stands.
///
/// A sync that fails writes the first [`HEAD_BYTES`](alta_layout::HEAD_BYTES) bytes again, as a read gives them: a later sync would leave them out else, where the
/// system takes them as written. A process that is killed inside of such a sync does not come to that. So the first write of an
/// opening first writes both slots again, and what its half of the journal has in front of it, and syncs. From there on a sync that
/// answers `Ok` makes firm what an earlier one did not, of this process or of another.
///
/// A call fails where the file is no plain one, where it can't be opened or locked, as where another holds the lock, where it is
/// longer than the limit, where a read ends early, where a write takes nothing, at a sync where the file was deleted or another
/// took its place, and at each other error of the system. Without a path every call fails. `fault` says why the last one did.
#[derive(Drop)]
pub struct FileDisk<R: Files<File = File> + AllocGlobal + Drop> {
    file: LazyFile<R>,
    faults: u64,
    taken: u64,
    fault: Option<FileFault>,
}

// A file that the first call opens.
#[derive(Drop)]
struct LazyFile<R: Files<File = File> + AllocGlobal + Drop> {
    rt: R,
    path: Option<Text>,
    file: Option<File>,
    // whether what the first write goes by was written again and synced
    is_renewed: bool,
}

impl<R: Files<File = File> + AllocGlobal + Drop> LazyFile<R> {
    fn open(&mut self) -> Result<(), FileFault> {
        if self.file.is_some() {
            return Ok(());
        }
        let Some(path) = &self.path else {
            return Err(no_path());
        };
        let file = open_file(&self.rt, path)?;
        lock(&file)?;
        if plain_length(&file)? == 0 {
            sync_folder(&self.rt, path)?;
        }
        self.file = Some(file);
        Ok(())
    }

    fn opened(&mut self) -> Result<&File, FileFault> {
        self.open()?;
        match &self.file {
            Some(file) => Ok(file),
            None => Err(no_path()),
        }
    }

    fn len(&mut self) -> Result<u64, FileFault>
        ensures { IfOk result (λ n. n ≤ 2 ^ 40) }
    {
        plain_length(self.opened()?)
    }

    fn read(&mut self, at: u64, buf: &mut [u8]) -> Result<(), FileFault> {
        named("pread64", self.opened()?.read_exact_at(buf, at))
    }

    fn write(&mut self, at: u64, bytes: &[u8]) -> Result<(), FileFault> {
        if !self.is_renewed {
            renew_head(self.opened()?, at)?;
            self.is_renewed = true;
        }
        named("pwrite64", self.opened()?.write_all_at(bytes, at))
    }

    fn sync(&mut self) -> Result<(), FileFault> {
        let file = self.opened()?;
        sync_data(file)?;
        must_have_name(file)
    }
}

fn no_path() -> FileFault {
    FileFault::of("open", ErrorKind::NotFound, "no path")
}

impl<R: Files<File = File> + AllocGlobal + Drop> FileDisk<R> {
    /// A disk over the file at this path. Nothing is opened yet.
    pub fn new(rt: R, path: Option<Text>) -> FileDisk<R>
        ensures faults { (⟦<FileDisk<R> as Disk>⟧.state result).faults ≡ 0 }
        ensures taken { (⟦<FileDisk<R> as Disk>⟧.state result).taken ≡ 0 }
    {
        FileDisk {
            file: LazyFile {
                rt,
                path,
                file: None,
                is_renewed: false,
            },
            faults: 0,
            taken: 0,
            fault: None,
        }
    }

    /// Why the last call failed that did; nothing where none has.
    pub fn fault(&self) -> Option<&FileFault> {
        self.fault.as_ref()
    }

    fn count_fault(&mut self, fault: FileFault) -> Failed
        ensures rose { Rose self.old.faults self.new.faults }
        ensures later { self.old.faults ≤ self.new.faults }
        ensures taken { self.new.taken ≡ self.old.taken }
    {
        self.faults = self.faults.saturating_add(1);
        self.fault = Some(fault);
        Failed
    }
}

impl<R: Files<File = File> + AllocGlobal + Drop> Disk for FileDisk<R> {
    ghost tells = { ⊥ };

    ghost state = { λ d. untold d.faults d.taken (2 ^ 40) };

    ghost lawful = { λ d. untold_lawful d.faults d.taken (2 ^ 40) };

    fn len(&mut self) -> Result<u64, Failed> {
        match self.file.len() {
            Ok(n) => Ok(n),
            Err(fault) => Err(self.count_fault(fault)),
        }
    }

    fn read(&mut self, at: u64, buf: &mut [u8]) -> Result<(), Failed>
        ensures counted { OnOk result ((⟦<FileDisk<R> as Disk>⟧.state self.new).taken
            ≡ min ((⟦<FileDisk<R> as Disk>⟧.state self.old).taken + length buf.old) (2 ^ 64 - 1)) }
        ensures charges { Charges (length buf.old) (⟦<FileDisk<R> as Disk>⟧.state self.old)
            (⟦<FileDisk<R> as Disk>⟧.state self.new) result }
    {
        match self.file.read(at, buf) {
            Ok(()) => {
                self.taken = self.taken.saturating_add(buf.len() as u64);
                Ok(())
            }
            Err(fault) => Err(self.count_fault(fault)),
        }
    }

    fn write(&mut self, at: u64, bytes: &[u8]) -> Result<(), Failed> {
        match self.file.write(at, bytes) {
            Ok(()) => Ok(()),
            Err(fault) => Err(self.count_fault(fault)),
        }
    }

    fn sync(&mut self) -> Result<(), Failed> {
        match self.file.sync() {
            Ok(()) => Ok(()),
            Err(fault) => Err(self.count_fault(fault)),
        }
    }

    fn limit(&self) -> u64 {
        FILE_LIMIT
    }
}
