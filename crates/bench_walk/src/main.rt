//! Asks a query over given lists again and again, so that the time of it can be measured: `bench_walk count once ROUNDS FOLDER QUERY` counts
//! the documents so often over one snapshot. With `search` in place of `count` it searches, and reads the name of each answer. With `each`
//! in place of `once` it also checks copies of the query's lists in each round. The folder has the file `documents`, a line `CELLS
//! NAME` for each, the file `terms`, a line for each term in collating order, and for each term that the query needs its stream, named as
//! the term, and its summary, with `.summary` behind. It prints how many documents it found and the bytes of their names, of all
//! rounds together. bench/walk.py runs it.
#![tactic(auto)]

mod documents;
mod lists;
mod rounds;

ghost use Rattle.std.specs.Prelude.{◌≡◌, IfOk};
ghost use Rattle.alta_compile.specs.View.{tree};
ghost use Rattle.alta_search.specs.Plans.{tests_of};

use crate::documents::{all_rows, level_rows};
use crate::lists::{files, tested};
use crate::rounds::{Way, uncounted};
use alta_compile::{Plan, compile};
use alta_query::{Query, parse};
use alta_search::{Snapshot, loading_order};
use std::process::ExitCode;
use std::{env, fs, io};

/// The text of a file of the folder.
fn text(rt: &HostRuntime, folder: &str, name: &str) -> io::Result<String> {
    fs::read_to_string(rt, format!(in rt.alloc(); "{folder}/{name}")?.as_str())
}

/// The snapshot of the folder's lists and documents for a plan.
fn snapshot(rt: &HostRuntime, folder: &str, terms: &str, plan: &Plan) -> io::Result<Snapshot>
    ensures { IfOk result (λ s. s.tests ≡ tests_of (tree plan.now)) }
{
    let alloc = rt.alloc();
    let (tests, uses) = loading_order(alloc, plan)?.into_parts();
    let lines = text(rt, folder, "documents")?;
    let level = level_rows(alloc, lines.as_str())?;
    let tests = tested(rt, folder, terms, tests.into_vec(), &level)?;
    let rows = all_rows(alloc, level)?;
    Ok(Snapshot::new(tests, uses, rows, Vec::new(alloc)))
}

/// What is asked, done and told.
fn ask(rt: &HostRuntime, query: &Query, way: Way, rounds: u64, folder: &str) -> io::Result<()> {
    let alloc = rt.alloc();
    let plan = compile(alloc, query)?;
    let terms = text(rt, folder, "terms")?;
    let snapshot = snapshot(rt, folder, terms.as_str(), &plan)?;
    let (tests, _uses) = loading_order(alloc, &plan)?.into_parts();
    let files = files(rt, folder, terms.as_str(), tests.as_slice())?;
    let (count, bytes) = uncounted(alloc, &plan, query, &snapshot, &files, way, rounds)?;
    println!(rt; "{count} {bytes}")?;
    Ok(())
}

fn main(rt: HostRuntime) -> io::Result<ExitCode> {
    let mut words = env::args(&rt)?;
    let _program = words.next();
    let (Some(mode), Some(checks), Some(rounds), Some(folder), Some(text)) = (
        words.next(),
        words.next(),
        words.next(),
        words.next(),
        words.next(),
    ) else {
        return Ok(ExitCode::from(2));
    };
    let way = Way {
        named: mode.as_str() == "search",
        checked: checks.as_str() == "each",
    };
    let rounds = rounds.as_str().parse::<u64>().unwrap_or(1);
    match parse(rt.alloc(), text.as_str()) {
        Ok(query) => {
            ask(&rt, &query, way, rounds, folder.as_str())?;
            Ok(ExitCode::SUCCESS)
        }
        Err(_) => Ok(ExitCode::from(3)),
    }
}
