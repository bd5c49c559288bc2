// Where an index, a level, a join or a deletion list wants a place that a disk of so many bytes has not.
use crate::calling::{disk_within, put_lines, run};
use alta_session::Status;
use std::alloc::Global;
use std::process::Abort;
use std::test::Fail;

// The bytes that the disk may have, the words and the lines: the replies, and the status behind them. Where the words are `run` an index is
// made before. The levels of both documents have 126 and 117 bytes, and end at 2,105,587; their join has 164, and a third level 85.
const ROWS: &str = "2105343 init |  => Full { need: 2105344, gap: 2105343 }
2105344 init |  => Done
2105343 demo|200 | stats => Full { need: 2105344, gap: 2105343 }
2105344 run | add a\tRed Fox\tthe quick red fox / flush => added 1 / Full { need: 126, gap: 0 }
2105586 run | add a\tRed Fox\tthe quick red fox / flush / add b\tFox\tquick brown dog / flush => added 1 / ok / added 2 / Full { need: 117, gap: 116 }
2105587 run | add a\tRed Fox\tthe quick red fox / flush / add b\tFox\tquick brown dog / flush => added 1 / ok / added 2 / ok / Done
2105750 run | add a\tRed Fox\tthe quick red fox / flush / add b\tFox\tquick brown dog / flush / merge => added 1 / ok / added 2 / ok / Full { need: 164, gap: 163 }
2105751 run | add a\tRed Fox\tthe quick red fox / flush / add b\tFox\tquick brown dog / flush / merge => added 1 / ok / added 2 / ok / ok / Done
2105750 run | add a\tRed Fox\tthe quick red fox / flush / add b\tFox\tquick brown dog / flush / step 13 => added 1 / ok / added 2 / ok / Full { need: 164, gap: 163 }
2105587 run | add a\tRed Fox\tthe quick red fox / flush / add b\tFox\tquick brown dog / flush / step 12 => added 1 / ok / added 2 / ok / ok / Done
2105835 run | add a\tRed Fox\tthe quick red fox / flush / add b\tFox\tquick brown dog / flush / add c\t\tred dog / step 13 => added 1 / ok / added 2 / ok / added 3 / Full { need: 85, gap: 84 }
2105836 run | add a\tRed Fox\tthe quick red fox / flush / add b\tFox\tquick brown dog / flush / add c\t\tred dog / step 13 => added 1 / ok / added 2 / ok / added 3 / ok / Done
2105587 run | add a\tRed Fox\tthe quick red fox / flush / add b\tFox\tquick brown dog / flush / delete a / flush => added 1 / ok / added 2 / ok / deleted 1 / Full { need: 1, gap: 0 }
2105751 run | add a\tRed Fox\tthe quick red fox / flush / add b\tFox\tquick brown dog / flush / merge / delete b / merge / add b\t\tred / merge => added 1 / ok / added 2 / ok / ok / deleted 2 / ok / added 3 / ok / Done";

// What was given, and a status, with ` / ` between two of them.
fn said(alloc: Global, status: Status, given: &[u8]) -> Result<String, Fail> {
    let mut out = String::new(alloc);
    for reply in str::from_utf8(given).unwrap_or("no text\n").split('\n') {
        if !reply.is_empty() {
            write!(out, "{reply} / ")?;
        }
    }
    write!(out, "{status:?}")?;
    Ok(out)
}

// What these words and lines give on a new disk of at most so many bytes.
fn told(alloc: Global, limit: u64, words: &str, lines: &str) -> Result<String, Fail> {
    let mut disk = disk_within(alloc, Vec::new(alloc), limit, Vec::new(alloc))?;
    if words == "run" {
        run(alloc, &mut disk, "init", Vec::new(alloc))?;
    }
    let mut input = Vec::new(alloc);
    put_lines(&mut input, lines)?;
    let (status, given) = run(alloc, &mut disk, words, input)?;
    said(alloc, status, &given)
}

fn told_of(alloc: Global, asked: &str) -> Result<String, Fail> {
    let (head, lines) = asked.split_once(" | ").unwrap_or((asked, ""));
    let (limit, words) = head.split_once(' ').unwrap_or((head, ""));
    let Ok(limit) = limit.parse::<u64>() else {
        return Err("a number is missing".into());
    };
    told(alloc, limit, words, lines)
}

pub(crate) fn what_has_no_place_is_told(rt: &impl Abort, alloc: Global) -> Result<(), Fail> {
    for row in ROWS.split('\n') {
        let (asked, want) = row.split_once(" => ").unwrap_or((row, ""));
        let told = told_of(alloc, asked)?;
        assert_eq!(rt; told.as_str(), want, "{asked}");
    }
    Ok(())
}
