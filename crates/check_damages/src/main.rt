//! Reads segments, and what they become where single bytes are damaged. For each file that its arguments name it prints
//! the place of the first damage inside it, or `.` where it is whole and what was read is spelled so again. A whole one of
//! at most 1,024 bytes is then damaged: for each of its bytes a line says what comes where the byte is changed to each of
//! twelve values, and where the segment is cut before it; a last line, what comes where a byte stands behind it. The
//! places that have to come are in `stdout`: tests/segments.py finds them by a reading of its own.
#![tactic(auto)]

ghost use Rattle.std.specs.Prelude.{◌<◌, ◌≤◌, length};

use alta_level::{LevelFault, build, read_content};
use std::alloc::{AllocError, Global};
use std::process::ExitCode;
use std::{env, fs, io};

// Where the segments stand on the disk.
const START: u64 = 2_105_344;

// What a byte is changed to.
const VALUES: [u8; 12] = [0, 1, 2, 3, 0x08, 0x20, 0x7f, 0x80, 0x81, 0x82, 0xa5, 0xff];

// The longest segment that is damaged byte by byte.
const DAMAGED_MOST: usize = 1_024;

// The longest file that is read.
const READ_MOST: usize = 1 << 20;

// What the reading of a segment comes to.
enum Reading {
    // It is whole, and what was read is spelled by the same bytes.
    Whole,
    // It is whole, and what was read is spelled otherwise.
    Otherwise,
    // The place of its first damage, from its own start.
    Damaged(u64),
}

fn read(alloc: Global, bytes: &[u8]) -> Result<Reading, AllocError>
    requires { length bytes.now ≤ READ_MOST }
{
    match read_content(alloc, bytes, START) {
        Ok(content) => {
            let again = build(alloc, content)?;
            Ok(if again.as_slice() == bytes {
                Reading::Whole
            } else {
                Reading::Otherwise
            })
        }
        Err(LevelFault::Damaged(place)) => Ok(Reading::Damaged(place.wrapping_sub(START))),
        Err(LevelFault::Memory) => Err(AllocError),
    }
}

// Appends what the reading of a segment comes to.
fn put_reading(alloc: Global, line: &mut String, bytes: &[u8]) -> Result<(), AllocError>
    requires { length bytes.now ≤ READ_MOST }
{
    match read(alloc, bytes)? {
        Reading::Whole => line.push_str("."),
        Reading::Otherwise => line.push_str("!"),
        Reading::Damaged(place) => write!(line, "{place}"),
    }
}

// What comes where the byte at the index is changed, and where the segment is cut before it.
fn changed(alloc: Global, bytes: &[u8], index: usize) -> Result<String, AllocError>
    requires index { index < length bytes.now }
    requires short { length bytes.now ≤ DAMAGED_MOST }
{
    let mut line = String::new(alloc);
    let mut copy = Vec::from_slice(alloc, bytes)?;
    for value in VALUES {
        copy[index] = value;
        put_reading(alloc, &mut line, &copy)?;
        line.push_str(" ")?;
    }
    put_reading(alloc, &mut line, &bytes[..index])?;
    Ok(line)
}

// What comes where one byte more stands at the end.
fn longer(alloc: Global, bytes: &[u8]) -> Result<String, AllocError>
    requires { length bytes.now ≤ DAMAGED_MOST }
{
    let mut copy = Vec::from_slice(alloc, bytes)?;
    copy.push(0)?;
    let mut line = String::new(alloc);
    put_reading(alloc, &mut line, &copy)?;
    Ok(line)
}

// Prints what comes of the segment's damages.
fn report_damages(rt: &HostRuntime, bytes: &[u8]) -> io::Result<()>
    requires { length bytes.now ≤ DAMAGED_MOST }
{
    let alloc = rt.alloc();
    for index in 0..bytes.len() {
        let line = changed(alloc, bytes, index)?;
        println!(rt; "{}", line.as_str())?;
    }
    let line = longer(alloc, bytes)?;
    println!(rt; "{}", line.as_str())
}

// Prints what comes of the segment as it is, and where it is whole and short, of its damages.
fn report(rt: &HostRuntime, name: &str, bytes: &[u8]) -> io::Result<()>
    requires { length bytes.now ≤ READ_MOST }
{
    let alloc = rt.alloc();
    let mut line = format!(in alloc; "{name} ")?;
    put_reading(alloc, &mut line, bytes)?;
    println!(rt; "{}", line.as_str())?;
    if bytes.len() <= DAMAGED_MOST && line.as_str().ends_with(" .") {
        report_damages(rt, bytes)?;
    }
    Ok(())
}

fn main(rt: HostRuntime) -> io::Result<ExitCode> {
    let mut words = env::args(&rt)?;
    let _program = words.next();
    for name in words {
        let bytes = fs::read(&rt, name.as_str())?;
        if bytes.len() > READ_MOST {
            return Ok(ExitCode::from(2));
        }
        report(&rt, name.as_str(), &bytes)?;
    }
    Ok(ExitCode::SUCCESS)
}
