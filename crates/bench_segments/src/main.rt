//! Opens, reads or builds a segment again and again, so that the time of it can be measured: `bench_segments ROUNDS FILE
//! MODE..` does for each mode, `open`, `read` or `build`, what it says so often. It prints for each how many documents
//! and terms were opened or read, or how many bytes were built. A segment is built of its content, which is used up, so each
//! building reads it first. bench/segments.py runs it.
#![tactic(auto)]

ghost use Rattle.std.specs.Prelude.{◌≤◌, length};

use alta_codec::Len;
use alta_level::{LevelFault, OpenLevel, build, head, read_content};
use std::alloc::{AllocError, Global};
use std::process::ExitCode;
use std::{env, fs, io};

// Where the segment stands on the disk.
const START: u64 = 2_105_344;

// The longest file that is read.
const MOST: usize = 1 << 32;

// What was read, None where it is damaged.
fn undamaged<T>(read: Result<T, LevelFault>) -> Result<Option<T>, AllocError> {
    match read {
        Ok(value) => Ok(Some(value)),
        Err(LevelFault::Damaged(_)) => Ok(None),
        Err(LevelFault::Memory) => Err(AllocError),
    }
}

// How many bytes head and tables have, 0 where the head is damaged.
fn tables_len(bytes: &[u8]) -> usize
    requires { length bytes.now ≤ MOST }
    ensures { result ≤ length bytes.now }
{
    match head(bytes, START, bytes.len() as u64) {
        Ok(head) => (32 + head.document_bytes + head.term_bytes) as usize,
        Err(_) => 0,
    }
}

// How many documents and terms the tables have, 0 where they are damaged.
fn open(alloc: Global, tables: &[u8], total: u64) -> Result<u64, AllocError>
    requires { total ≤ MOST }
{
    match head(tables, START, total) {
        Ok(head) if 32 + head.document_bytes + head.term_bytes == tables.len() as u64 => {
            match undamaged(OpenLevel::open(alloc, tables, START, total))? {
                Some(table) => Ok((table.documents().len() as u64).wrapping_add(head.terms)),
                None => Ok(0),
            }
        }
        _ => Ok(0),
    }
}

fn opens(alloc: Global, bytes: &[u8], rounds: u64) -> Result<u64, AllocError>
    requires { length bytes.now ≤ MOST }
{
    let tables = &bytes[..tables_len(bytes)];
    let mut sum: u64 = 0;
    for _ in 0..rounds {
        sum = sum.wrapping_add(open(alloc, tables, bytes.len() as u64)?);
    }
    Ok(sum)
}

// How many documents and terms the segment has, 0 where it is damaged.
fn read(alloc: Global, bytes: &[u8]) -> Result<u64, AllocError>
    requires { length bytes.now ≤ MOST }
{
    match undamaged(read_content(alloc, bytes, START))? {
        Some(content) => {
            let documents = content.documents.len() as u64;
            Ok(documents.wrapping_add(content.lists.len() as u64))
        }
        None => Ok(0),
    }
}

fn reads(alloc: Global, bytes: &[u8], rounds: u64) -> Result<u64, AllocError>
    requires { length bytes.now ≤ MOST }
{
    let mut sum: u64 = 0;
    for _ in 0..rounds {
        sum = sum.wrapping_add(read(alloc, bytes)?);
    }
    Ok(sum)
}

// How many bytes are built of the segment's content, 0 where it is damaged.
fn build_again(alloc: Global, bytes: &[u8]) -> Result<u64, AllocError>
    requires { length bytes.now ≤ MOST }
{
    match read_content(alloc, bytes, START) {
        Ok(content) => Ok(build(alloc, content)?.len() as u64),
        Err(LevelFault::Damaged(_)) => Ok(0),
        Err(LevelFault::Memory) => Err(AllocError),
    }
}

fn builds(alloc: Global, bytes: &[u8], rounds: u64) -> Result<u64, AllocError>
    requires { length bytes.now ≤ MOST }
{
    let mut sum: u64 = 0;
    for _ in 0..rounds {
        sum = sum.wrapping_add(build_again(alloc, bytes)?);
    }
    Ok(sum)
}

fn main(rt: HostRuntime) -> io::Result<ExitCode> {
    let alloc = rt.alloc();
    let mut words = env::args(&rt)?;
    let _program = words.next();
    let (Some(rounds), Some(file)) = (words.next(), words.next()) else {
        return Ok(ExitCode::from(2));
    };
    let rounds = rounds.as_str().parse::<u64>().unwrap_or(1);
    let bytes = fs::read(&rt, file.as_str())?;
    if bytes.len() > MOST {
        return Ok(ExitCode::from(2));
    }
    for mode in words {
        let sum = match mode.as_str() {
            "open" => opens(alloc, &bytes, rounds)?,
            "read" => reads(alloc, &bytes, rounds)?,
            _ => builds(alloc, &bytes, rounds)?,
        };
        println!(rt; "{sum}")?;
    }
    Ok(ExitCode::SUCCESS)
}
