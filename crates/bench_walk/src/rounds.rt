// A query asked again and again.
ghost use Rattle.std.specs.Prelude.{◌≡◌, ◌<◌};
ghost use Rattle.alta_machine.specs.PlanOf.{plan_of};
ghost use Rattle.alta_compile.specs.View.{tree};
ghost use Rattle.alta_query.specs.View.{shape};
ghost use Rattle.alta_search.specs.Plans.{tests_of};

use crate::lists::ListFiles;
use alta_codec::{Len, Steps};
use alta_compile::Plan;
use alta_counts::count;
use alta_query::Query;
use alta_search::{Page, Snapshot, search};
use alta_words::Posting;
use std::alloc::{AllocError, Global};
use std::marker::Brand;
use std::sync::ledger::{Blank, Ledger};

/// What a round does.
#[derive(Clone, Copy)]
pub(crate) struct Way {
    /// Whether it reads the names of the answers, where else it only counts them.
    pub named: bool,
    /// Whether it checks copies of the lists first.
    pub checked: bool,
}

/// How many answers a page has, and the bytes of their names.
fn names(page: &Page) -> (u64, u64) {
    let mut count: u64 = 0;
    let mut bytes: u64 = 0;
    for i in 0..page.answers.len() {
        count = count.wrapping_add(1);
        bytes = bytes.wrapping_add(page.answers.row(i).name.as_str().len() as u64);
    }
    (count, bytes)
}

/// How many documents one search finds, and the bytes of their names where it is to read them.
fn ask<L: Ledger>(
    alloc: Global,
    plan: &Plan,
    query: &Query,
    snapshot: &Snapshot,
    named: bool,
    steps: &mut Steps<L>,
) -> Result<(u64, u64), AllocError>
    requires tests { snapshot.now.tests ≡ tests_of (tree plan.now) }
    requires query { tree plan.now ≡ plan_of (shape query.now) }
{
    if named {
        let page = search(alloc, plan, query, snapshot, steps)?;
        Ok(names(&page))
    } else {
        let count = count(alloc, plan, query, snapshot, steps)?;
        Ok((count, 0))
    }
}

/// Checks copies of the lists. One that breaks a rule counts as want of memory.
fn check(all: &[ListFiles]) -> Result<(), AllocError> {
    for files in all {
        match Posting::check(files.stream.clone()?, files.summary.clone()?) {
            Ok(_posting) => (),
            Err(_) => return Err(AllocError),
        }
    }
    Ok(())
}

/// How many documents all rounds find, and the bytes of their names.
fn rounds<L: Ledger>(
    alloc: Global,
    plan: &Plan,
    query: &Query,
    snapshot: &Snapshot,
    files: &[ListFiles],
    way: Way,
    rounds: u64,
    blank: Blank,
) -> Result<(u64, u64), AllocError>
    requires tests { snapshot.now.tests ≡ tests_of (tree plan.now) }
    requires query { tree plan.now ≡ plan_of (shape query.now) }
    requires name { blank.name ≡ L.name }
    requires parts { blank.parts ≡ L.parts }
    requires shared { 0 < L.parts }
{
    let mut steps = Steps::<L>::new(blank);
    let mut count: u64 = 0;
    let mut bytes: u64 = 0;
    for _ in 0..rounds {
        if way.checked {
            check(files)?;
        }
        let (more, longer) = ask(alloc, plan, query, snapshot, way.named, &mut steps)?;
        count = count.wrapping_add(more);
        bytes = bytes.wrapping_add(longer);
    }
    Ok((count, bytes))
}

/// The same, where nobody counts the steps.
pub(crate) fn uncounted(
    alloc: Global,
    plan: &Plan,
    query: &Query,
    snapshot: &Snapshot,
    files: &[ListFiles],
    way: Way,
    turns: u64,
) -> Result<(u64, u64), AllocError>
    requires tests { snapshot.now.tests ≡ tests_of (tree plan.now) }
    requires query { tree plan.now ≡ plan_of (shape query.now) }
{
    rounds::<Brand>(
        alloc,
        plan,
        query,
        snapshot,
        files,
        way,
        turns,
        Blank::new(1),
    )
}
