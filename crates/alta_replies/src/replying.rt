// Replies, and what stands in them.
ghost use Rattle.std.proofs.Common.{Global};
ghost use Rattle.std.specs.Prelude.{◌≡◌, ◌++◌, ℕ, List, codes, decimal, String, string_bytes, Ok, IfOk, IfErr, OnOk};
ghost use Rattle.alta_query.specs.Answer.{fault_in};
ghost use Rattle.alta_replies.specs.Replies.{IsReply};
ghost use Rattle.alta_machine.specs.Searching.{row_lines, score_lines, cause_name, found_line, query_refusal};

use alta_codec::{Len, Text};
use alta_machine::{Cause, Scored};
use alta_query::QueryFault;
use alta_search::Answers;
use alta_store::StoreFault;
use std::alloc::{AllocError, Global};

/// This text as a reply. It fails for want of memory alone.
pub fn text(alloc: Global, reply: &str) -> Result<Text, StoreFault>
    ensures { IsReply reply.now result }
{
    match String::from_str(alloc, reply) {
        Ok(text) => Ok(Text::from_string(text)),
        Err(_) => Err(StoreFault::Memory),
    }
}

/// The reply that was written, or want of memory.
pub(crate) fn written(reply: Result<String, AllocError>) -> Result<Text, StoreFault>
    ensures reply { IfOk result (λ text. (r : String Global) × (reply ≡ Ok r) × (text ≡ string_bytes r)) }
    ensures memory { IfErr result (λ e. e ≡ StoreFault.Memory) }
{
    match reply {
        Ok(reply) => Ok(Text::from_string(reply)),
        Err(_) => Err(StoreFault::Memory),
    }
}

/// The reply to a text that is no query. It fails for want of memory alone.
pub(crate) fn refused(alloc: Global, fault: QueryFault) -> Result<Text, StoreFault>
    ensures reply { IsReply (query_refusal (fault_in fault)) result }
    ensures wanting { IfOk result (λ reply. fault.cause ≡ Cause.Memory → ⊥) }
{
    if fault.cause == Cause::Memory {
        return Err(StoreFault::Memory);
    }
    let place = fault.place;
    let cause = name_of(fault.cause);
    match format!(in alloc; "! query {place} {cause}\n") {
        Ok(reply) => Ok(Text::from_string(reply)),
        Err(_) => Err(StoreFault::Memory),
    }
}

fn name_of(cause: Cause) -> &'static str
    ensures { result.now ≡ cause_name cause }
{
    match cause {
        Cause::Empty => "Empty",
        Cause::Word => "Word",
        Cause::Prefix => "Prefix",
        Cause::Near => "Near",
        Cause::Name => "Name",
        Cause::Value => "Value",
        Cause::Quote => "Quote",
        Cause::Paren => "Paren",
        Cause::Operand => "Operand",
        Cause::Deep => "Deep",
        Cause::Many => "Many",
        Cause::Memory => "Memory",
    }
}

/// Writes a line for each answer, with its number and its name.
pub(crate) fn put_answers(reply: &mut String, answers: &Answers) -> Result<(), AllocError>
    ensures { OnOk result (string_bytes reply.new ≡ string_bytes reply.old ++ row_lines answers.now) }
{
    for index in 0..answers.len() {
        let row = answers.row(index);
        put_answer(reply, row.number, row.name.as_str())?;
    }
    Ok(())
}

fn put_answer(reply: &mut String, number: u64, name: &str) -> Result<(), AllocError>
    ensures { OnOk result (string_bytes reply.new ≡ string_bytes reply.old ++ decimal number ++ codes " "
        ++ name.now ++ codes "\n") }
{
    write!(reply, "{number} {name}\n")
}

/// Writes a line for each answer, with its number, its name and its score.
pub(crate) fn put_scores(reply: &mut String, answers: &[Scored]) -> Result<(), AllocError>
    ensures { OnOk result (string_bytes reply.new ≡ string_bytes reply.old ++ score_lines answers.now) }
{
    for answer in answers {
        put_score(reply, answer.number, answer.name.as_str(), answer.score)?;
    }
    Ok(())
}

fn put_score(reply: &mut String, number: u64, name: &str, score: u64) -> Result<(), AllocError>
    ensures { OnOk result (string_bytes reply.new ≡ string_bytes reply.old ++ decimal number ++ codes " " ++ name.now
        ++ codes " " ++ decimal score ++ codes "\n") }
{
    write!(reply, "{number} {name} {score}\n")
}

/// Writes how many answers there are.
pub(crate) fn put_count(reply: &mut String, count: u64) -> Result<(), AllocError>
    ensures { OnOk result (string_bytes reply.new ≡ string_bytes reply.old ++ found_line count) }
{
    write!(reply, "found {count}\n")
}
