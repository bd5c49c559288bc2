//! Joins the contents of two segments, so that its allocations and its time can be measured: `bench_merge OLDER NEWER` reads the
//! two files and prints how many terms each has. With `begin` behind it also begins their join, and then takes a step of so many
//! terms for each further word, and prints whether no term is left. With `read N` it reads them N times more, with `join N` it
//! also joins them each time, and prints how many terms came of it in all. With a further number M behind, each Mth document
//! of both is dead in these joins. bench/merge.py runs it.
#![tactic(auto)]

ghost use Rattle.std.specs.Prelude.{◌≤◌, length, IfOk};
ghost use Rattle.alta_content.specs.Parts.{IsPart};

use alta_codec::{Len, Loc};
use alta_content::{Content, DocRow};
use alta_level::read_content;
use alta_merge::{Job, may_join};
use std::alloc::{AllocError, Global};
use std::process::ExitCode;
use std::{env, fs, io};

// The longest file that is read.
const MOST: usize = 1 << 32;

// The content of a segment. A damaged one counts as want of memory.
fn read(alloc: Global, bytes: &[u8]) -> Result<Content, AllocError>
    requires { length bytes.now ≤ MOST }
    ensures { IfOk result IsPart }
{
    match read_content(alloc, bytes, 0) {
        Ok(content) => Ok(content),
        Err(_fault) => Err(AllocError),
    }
}

// Adds the end of each row whose place, counted from 1, is a multiple of `every`.
fn put_ends(ends: &mut Vec<Loc>, rows: &[DocRow], every: u64) -> Result<(), AllocError> {
    let mut left = every;
    for row in rows {
        left = left.saturating_sub(1);
        if left == 0 {
            left = every;
            ends.push(row.first.wrapping_add(row.cells).wrapping_sub(1))?;
        }
    }
    Ok(())
}

// The join that begins, none where the contents may not be joined.
fn begin(alloc: Global, older: &[u8], newer: &[u8], dead: &[Loc]) -> Result<Option<Job>, AllocError>
    requires older { length older.now ≤ MOST }
    requires newer { length newer.now ≤ MOST }
{
    let a = read(alloc, older)?;
    let b = read(alloc, newer)?;
    if !may_join(&a, &b) {
        return Ok(None);
    }
    let job = Job::new(alloc, a, b, dead)?;
    Ok(Some(job))
}

// How many terms the two have.
fn terms(alloc: Global, older: &[u8], newer: &[u8]) -> Result<(usize, usize), AllocError>
    requires older { length older.now ≤ MOST }
    requires newer { length newer.now ≤ MOST }
{
    let a = read(alloc, older)?;
    let b = read(alloc, newer)?;
    Ok((a.lists.len(), b.lists.len()))
}

// How many terms their join has.
fn joined(alloc: Global, older: &[u8], newer: &[u8], dead: &[Loc]) -> Result<usize, AllocError>
    requires older { length older.now ≤ MOST }
    requires newer { length newer.now ≤ MOST }
{
    let Some(mut job) = begin(alloc, older, newer, dead)? else {
        return Ok(0);
    };
    let done = job.step(u64::MAX)?;
    if !done || !job.done() {
        return Ok(0);
    }
    Ok(job.finish().lists.len())
}

// Reads the two so often, and joins them each time if asked.
fn repeat(
    alloc: Global,
    older: &[u8],
    newer: &[u8],
    joins: bool,
    rounds: u64,
    dead: &[Loc],
) -> Result<u64, AllocError>
    requires older { length older.now ≤ MOST }
    requires newer { length newer.now ≤ MOST }
{
    let mut sum: u64 = 0;
    for _ in 0..rounds {
        let count = if joins {
            joined(alloc, older, newer, dead)?
        } else {
            let (a, b) = terms(alloc, older, newer)?;
            a.wrapping_add(b)
        };
        sum = sum.wrapping_add(count as u64);
    }
    Ok(sum)
}

// Begins the join of the two, and takes the steps of the words that are left.
fn take_steps(rt: &HostRuntime, a: Content, b: Content, words: env::Args) -> io::Result<()>
    requires a { IsPart a }
    requires b { IsPart b }
{
    if !may_join(&a, &b) {
        return Ok(());
    }
    let mut job = Job::new(rt.alloc(), a, b, &[])?;
    for word in words {
        let done = job.step(number(word.as_str(), 1))?;
        println!(rt; "{done}")?;
    }
    Ok(())
}

// The number that a word spells, or another where it spells none.
fn number(word: &str, other: u64) -> u64 {
    word.parse::<u64>().unwrap_or(other)
}

// The number that the next word spells, or another where there is none.
fn next_number(words: &mut env::Args, other: u64) -> u64 {
    match words.next() {
        Some(word) => number(word.as_str(), other),
        None => other,
    }
}

// The ends that are dead: of each document whose place is a multiple of `every`, in both, and none where that is 0.
fn dead_ends(alloc: Global, a: &Content, b: &Content, every: u64) -> Result<Vec<Loc>, AllocError> {
    let mut dead = Vec::new(alloc);
    if every == 0 {
        return Ok(dead);
    }
    put_ends(&mut dead, a.documents.as_slice(), every)?;
    put_ends(&mut dead, b.documents.as_slice(), every)?;
    Ok(dead)
}

// Does what the words ask with the two files.
fn work(rt: &HostRuntime, older: &[u8], newer: &[u8], mut words: env::Args) -> io::Result<()>
    requires older { length older.now ≤ MOST }
    requires newer { length newer.now ≤ MOST }
{
    let alloc = rt.alloc();
    let a = read(alloc, older)?;
    let b = read(alloc, newer)?;
    println!(rt; "{} {}", a.lists.len(), b.lists.len())?;
    let Some(mode) = words.next() else {
        return Ok(());
    };
    if mode.as_str() == "begin" {
        return take_steps(rt, a, b, words);
    }
    let rounds = next_number(&mut words, 1);
    let every = next_number(&mut words, 0);
    let dead = dead_ends(alloc, &a, &b, every)?;
    let sum = repeat(alloc, older, newer, mode.as_str() == "join", rounds, &dead)?;
    println!(rt; "{sum}")?;
    Ok(())
}

fn main(rt: HostRuntime) -> io::Result<ExitCode> {
    let mut words = env::args(&rt)?;
    let _program = words.next();
    let (Some(older), Some(newer)) = (words.next(), words.next()) else {
        return Ok(ExitCode::from(2));
    };
    let older = fs::read(&rt, older.as_str())?;
    let newer = fs::read(&rt, newer.as_str())?;
    if older.len() > MOST || newer.len() > MOST {
        return Ok(ExitCode::from(2));
    }
    work(&rt, &older, &newer, words)?;
    Ok(ExitCode::SUCCESS)
}
