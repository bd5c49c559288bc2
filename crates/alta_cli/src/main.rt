//! The program: `alta_cli PATH init` makes an index in a file, `alta_cli PATH run` answers the command lines of the
//! standard input, and `alta_cli PATH demo N` makes the generated index of N documents and prints a report.
//!
//! The null device is held open three times before anything else is opened. Else, where a standard stream was closed, the index
//! would be opened in its place, and what was meant for the stream be written over it. Where it can't be opened, no file is, and the
//! program ends with status 2. Neither is one that the standard output or the standard error leads to: the replies would be written
//! over the index, or behind it.
//!
//! Where a call of the disk or of a stream failed, a second line on standard error says which, and why.
#![tactic(auto)]

use alta_codec::Text;
use alta_console::StdConsole;
use alta_disk::{FileDisk, FileFault};
use alta_session::{Status, alta, status_line};
use std::alloc::AllocError;
use std::fs::{File, OpenOptions};
use std::os::unix::fs::MetadataExt;
use std::process::ExitCode;
use std::rt::{Env, Files, Runtime};
use std::{env, fs, io};

const NULL_DEVICE: &str = "/dev/null";

const OUTPUT: &str = "/proc/self/fd/1";

const ERROR_OUTPUT: &str = "/proc/self/fd/2";

// The path and the words behind it. Where an argument is not UTF-8 there is neither.
fn arguments<R: Env + AllocGlobal>(rt: &R) -> Result<(Option<Text>, Vec<Text>), AllocError> {
    let mut words = Vec::new(rt.alloc());
    let mut arguments = match env::args(rt) {
        Ok(arguments) => arguments,
        Err(error) if error.kind() == io::ErrorKind::OutOfMemory => return Err(AllocError),
        Err(_) => return Ok((None, words)),
    };
    let _program = arguments.next();
    let path = arguments.next().map(Text::from_string);
    for argument in arguments {
        words.push(Text::from_string(argument))?;
    }
    Ok((path, words))
}

fn open_null<R: Files<File = File>>(rt: &R) -> io::Result<File> {
    OpenOptions::new()
        .read(true)
        .write(true)
        .open(rt, NULL_DEVICE)
}

// Takes the descriptors of those standard streams that were closed, as long as the files are held: a file that is opened
// gets the lowest that is free, and what was meant for a stream would land in it. Where none was closed it does no harm.
fn hold_streams<R: Files<File = File>>(rt: &R) -> io::Result<[File; 3]> {
    Ok([open_null(rt)?, open_null(rt)?, open_null(rt)?])
}

// Why no file is opened.
#[derive(Clone, Copy)]
enum Refusal {
    NullDevice(io::Error),
    IsOutput,
    IsErrorOutput,
}

// Whether two paths lead to one file, as far as the system tells.
fn is_same<R: Files>(rt: &R, path: &str, other: &str) -> bool {
    match (fs::metadata(rt, path), fs::metadata(rt, other)) {
        (Ok(one), Ok(two)) => one.dev() == two.dev() && one.ino() == two.ino(),
        _ => false,
    }
}

fn refusal_of<R: Files>(rt: &R, held: &io::Result<[File; 3]>, path: &str) -> Option<Refusal> {
    if let Err(error) = held {
        return Some(Refusal::NullDevice(*error));
    }
    if is_same(rt, path, ERROR_OUTPUT) {
        return Some(Refusal::IsErrorOutput);
    }
    if is_same(rt, path, OUTPUT) {
        return Some(Refusal::IsOutput);
    }
    None
}

// Prints the line of a status that is not 0.
fn report(rt: &(impl Eprint + AllocGlobal), status: &Status) {
    if status.code() != 0 {
        if let Ok(line) = status_line(rt.alloc(), status) {
            let _ = eprintln!(rt; "{}", line.as_str());
        }
    }
}

// Prints why a call failed.
fn explain(rt: &impl Eprint, call: &str, error: Option<&io::Error>) {
    if let Some(error) = error {
        let _ = eprintln!(rt; "alta: {call}: {error}");
    }
}

fn explain_disk(rt: &impl Eprint, refusal: Option<Refusal>, fault: Option<&FileFault>) {
    match (refusal, fault) {
        (Some(Refusal::NullDevice(error)), _) => explain(rt, NULL_DEVICE, Some(&error)),
        (Some(_), _) => {
            let _ = eprintln!(rt; "alta: open: the standard output is the index");
        }
        (None, Some(fault)) => explain(rt, fault.call, Some(&fault.error)),
        (None, None) => {}
    }
}

fn main(rt: HostRuntime) -> ExitCode {
    let Ok((path, words)) = arguments(&rt) else {
        return ExitCode::from(5);
    };
    let held = hold_streams(&rt);
    let refusal = match &path {
        Some(path) => refusal_of(&rt, &held, path.as_str()),
        None => None,
    };
    // Without a path each call of the disk fails: nothing is opened.
    let mut disk = FileDisk::new(&rt, path.filter(|_| refusal.is_none()));
    let mut console = StdConsole::new(&rt);
    let status = alta(rt.alloc(), &words, &mut console, &mut disk);
    // Nothing is written into the index.
    if matches!(refusal, Some(Refusal::IsErrorOutput)) {
        return ExitCode::from(status.code());
    }
    report(&rt, &status);
    match status {
        Status::DiskFault => explain_disk(&rt, refusal, disk.fault()),
        Status::TakeFault => explain(&rt, "read", console.fault()),
        Status::GiveFault => explain(&rt, "write", console.fault()),
        _ => {}
    }
    ExitCode::from(status.code())
}
