//! Reads a coded list again and again, so that the time of it can be measured: `bench_decode check ROUNDS STREAM SUMMARY`
//! checks the stream and its summary so often, `bench_decode walk ROUNDS STREAM SUMMARY` walks the list by `next`. It
//! prints how many locations there are, and their sum. bench/decode.py runs it.
#![tactic(auto)]

ghost use Rattle.std.specs.Prelude.{◌≡◌, ◌<◌};

use alta_codec::{Steps, TOP};
use alta_reader::Reader;
use alta_words::{Posting, check};
use std::alloc::{AllocError, Global};
use std::marker::Brand;
use std::process::ExitCode;
use std::sync::ledger::{Blank, Ledger};
use std::{env, fs, io};

// The sum of the locations of a posting, by a walk.
fn walk<L: Ledger>(posting: &Posting, blank: Blank) -> u64
    requires name { blank.name ≡ L.name }
    requires parts { blank.parts ≡ L.parts }
    requires shared { 0 < L.parts }
{
    let mut steps = Steps::<L>::new(blank);
    let mut reader = posting.reader(&mut steps);
    let mut sum: u64 = 0;
    'list: while reader.loc() < TOP {
        sum = sum.wrapping_add(reader.loc());
        reader.next(&mut steps);
    }
    sum
}

// The same, where nobody counts the steps.
fn uncounted(posting: &Posting) -> u64 {
    walk::<Brand>(posting, Blank::new(1))
}

// The posting of copies of these bytes, None where they are none.
fn posting_of(stream: &Vec<u8>, summary: &Vec<u8>) -> Result<Option<Posting>, AllocError> {
    Ok(Posting::check(stream.clone()?, summary.clone()?).ok())
}

// How many locations were checked in all rounds.
fn checks(stream: &[u8], summary: &[u8], rounds: u64) -> u64 {
    let mut count: u64 = 0;
    for _ in 0..rounds {
        if let Ok(bounds) = check(stream, summary) {
            count = count.wrapping_add(bounds.count);
        }
    }
    count
}

// How many locations were walked in all rounds, and the sum of them.
fn walks(stream: &Vec<u8>, summary: &Vec<u8>, rounds: u64) -> Result<(u64, u64), AllocError> {
    let mut count: u64 = 0;
    let mut sum: u64 = 0;
    if let Some(posting) = posting_of(stream, summary)? {
        for _ in 0..rounds {
            count = count.wrapping_add(posting.list_len());
            sum = sum.wrapping_add(uncounted(&posting));
        }
    }
    Ok((count, sum))
}

fn main(rt: HostRuntime) -> io::Result<ExitCode> {
    let mut words = env::args(&rt)?;
    let _program = words.next();
    let (Some(mode), Some(rounds), Some(stream), Some(summary)) = (
        words.next(),
        words.next(),
        words.next(),
        words.next(),
    ) else {
        return Ok(ExitCode::from(2));
    };
    let rounds = rounds.as_str().parse::<u64>().unwrap_or(1);
    let stream = fs::read(&rt, stream.as_str())?;
    let summary = fs::read(&rt, summary.as_str())?;
    if mode.as_str() == "check" {
        let count = checks(&stream, &summary, rounds);
        println!(rt; "{count}")?;
    } else {
        let (count, sum) = walks(&stream, &summary, rounds)?;
        println!(rt; "{count} {sum}")?;
    }
    Ok(ExitCode::SUCCESS)
}
