// A line of the generated run, and its text.
ghost use Rattle.std.specs.Prelude.{◌≡◌, codes, string_bytes, IfOk};
ghost use Rattle.alta_make.specs.Script.{parity, add_with, add_line, delete_line};
ghost use Rattle.alta_make.specs.Text.{text_of};

use alta_codec::Text;
use std::alloc::{AllocError, Global};

/// What a line asks for.
#[derive(Drop)]
pub(crate) enum Line {
    /// To add the document of this number.
    Add(u64),
    /// To write what is in memory.
    Flush,
    /// To go on with the job.
    Step,
    /// To delete the document of this number.
    Delete(u64),
    /// To merge all levels.
    Merge,
}

/// Whether a number is even, in words.
fn parity(i: u64) -> &'static str
    ensures { result.now ≡ parity i }
{
    if i % 2 == 0 { "even" } else { "odd" }
}

/// The line that adds document `i`, with this last word.
fn add_with(alloc: Global, i: u64, word: &str) -> Result<String, AllocError>
    ensures { IfOk result (λ s. string_bytes s ≡ add_with i word.now) }
{
    format!(in alloc; "add d{i}\titem {i}\tw{} w{} {word}", i % 10, i % 100)
}

/// The line that adds document `i`.
fn add_line(alloc: Global, i: u64) -> Result<String, AllocError>
    ensures { IfOk result (λ s. string_bytes s ≡ add_line i) }
{
    add_with(alloc, i, parity(i))
}

/// The line that deletes document `i`.
fn delete_line(alloc: Global, i: u64) -> Result<String, AllocError>
    ensures { IfOk result (λ s. string_bytes s ≡ delete_line i) }
{
    format!(in alloc; "delete d{i}")
}

/// The text of a line.
pub(crate) fn text(alloc: Global, line: Line) -> Result<Text, AllocError>
    ensures { IfOk result (λ t. t ≡ text_of line) }
{
    let string = match line {
        Line::Add(i) => add_line(alloc, i)?,
        Line::Flush => String::from_str(alloc, "flush")?,
        Line::Step => String::from_str(alloc, "step 50")?,
        Line::Delete(i) => delete_line(alloc, i)?,
        Line::Merge => String::from_str(alloc, "merge")?,
    };
    Ok(Text::from_string(string))
}
