// From text to query.

ghost use Rattle.std.specs.Prelude.{◌≡◌, ◌⊎◌, ◌↔◌, ℕ, List, length, Some, Ok, Err, IfOk, IfErr, MatchResult};
ghost use Rattle.alta_machine.specs.Shape.{Shape};
ghost use Rattle.alta_query.specs.View.{shape};
ghost use Rattle.alta_machine.specs.Grammar.{ReadsQuery};
ghost use Rattle.alta_machine.specs.QueryFaults.{Fault, fault_of};
ghost use Rattle.alta_query.specs.Laws.{IsDecided};
ghost use Rattle.alta_machine.specs.Spots.{spots};
ghost use Rattle.alta_machine.specs.Token.{tokens_of};
ghost use Rattle.alta_machine.specs.Parser.{parse_of};
ghost use Rattle.alta_machine.specs.Queries.{query_of};
ghost use Rattle.alta_query.specs.Answer.{Gives, IsMemory, fault_in};
ghost use Rattle.alta_machine.specs.Matches.{IsWellFormed, HasMembers, HasOrderedValues};
ghost use Rattle.alta_query.specs.Texts.{HasTextTerms};

use crate::fault::QueryFault;
use crate::machine::Machine;
use crate::query::Query;
use crate::scan::{blank, first_piece};
use alta_machine::Cause;
use std::alloc::Global;

/// One pass over the text.
fn read(alloc: Global, text: &str) -> Result<Query, QueryFault>
    ensures reading { Gives result (parse_of (spots text.now) (length text.now)) }
    ensures text { IfOk result (λ q. HasTextTerms (shape q)) }
{
    let mut machine = Machine::new(alloc);
    let mut seen = false;
    let mut at = 0;
    while at < text.len() {
        if blank(text.as_bytes()[at]) {
            at += 1;
        } else {
            let piece = first_piece(alloc, &text[at..])?;
            if let Some(cause) = machine.cause(piece.kind) {
                return Err(QueryFault { place: at, cause });
            }
            machine.step(alloc, piece.kind)?;
            seen = true;
            at += piece.len;
        }
    }
    if !seen {
        return Err(QueryFault {
            place: 0,
            cause: Cause::Empty,
        });
    }
    machine.finish(text.len())
}

/// The query that a text spells.
///
/// Tokens are cut from left to right. A blank is a space or a tab. `(` and `)` are tokens of their own; a quoted piece
/// ends at the next quote; what begins with `name:` goes up to the next blank, and any other run up to the next blank,
/// parenthesis or quote. `AND`, `OR`, `NOT` and `NEAR/k` are operators. A run that ends with `*` is a prefix, and any
/// other run or quoted piece stands for its words, one behind the other. `title:` before a run or a quoted piece asks
/// for the title, and `value:a..b` for a number from a to b. NOT binds first, then AND, which may be left out, then OR.
///
/// Else the answer is the first fault by its place in bytes, with its cause: at one token its own cause, then that it
/// may not stand there, then [`Cause::Deep`], then [`Cause::Many`]. [`Cause::Memory`] comes for want of memory alone.
/// The time is linear in the text.
pub fn parse(alloc: Global, text: &str) -> Result<Query, QueryFault>
    ensures reading { Gives result (query_of text.now) }
    // What is read is in the grammar.
    ensures found { IfOk result (λ q. ReadsQuery (tokens_of (spots text.now)) (shape q)) }
    // What is in the grammar is read, unless memory runs out.
    ensures only { (q : Shape) → ReadsQuery (tokens_of (spots text.now)) q
        → MatchResult result (λ r. shape r ≡ q) IsMemory }
    // A fault is the first one, unless memory runs out.
    ensures first { IfErr result (λ e. IsMemory e ⊎ (fault_of (spots text.now) (length text.now) ≡ Some (fault_in e))) }
    // The first fault is answered, unless memory runs out.
    ensures answered { (f : Fault) → fault_of (spots text.now) (length text.now) ≡ Some f
        → MatchResult result (λ q. ⊥) (λ e. IsMemory e ⊎ (fault_in e ≡ f)) }
    // Each term of what is read is UTF-8, but those of ranges.
    ensures text { IfOk result (λ q. HasTextTerms (shape q)) }
{
    read(alloc, text)
}

/// A law, and nothing to run: of each text either exactly one query is read and there is no fault, or there is a fault
/// and nothing is read.
pub fn one_or_other()
    ensures { (text : List ℕ) → IsDecided (spots text) (length text) }
{}

/// A law, and nothing to run: a text is read as a query exactly where it spells that query, and with a fault exactly where
/// that is its first fault.
pub fn a_query_is_read_one_way()
    ensures read { (text : List ℕ) (q : Shape) → (query_of text ≡ Ok q) ↔ ReadsQuery (tokens_of (spots text)) q }
    ensures refused { (text : List ℕ) (f : Fault) → (query_of text ≡ Err f)
        ↔ (fault_of (spots text) (length text) ≡ Some f) }
{}

/// A law, and nothing to run: of a well-formed query, one that some UTF-8 text is read as, each And and Or has two members
/// at least.
pub fn a_query_has_members()
    ensures { (q : Shape) → IsWellFormed q → HasMembers q }
{}

/// A law, and nothing to run: each term of a well-formed query is UTF-8, but those of its values' ranges.
pub fn a_query_asks_for_text()
    ensures { (q : Shape) → IsWellFormed q → HasTextTerms q }
{}

/// A law, and nothing to run: the numbers of each value of a well-formed query have 32 bits, and the second is no lower.
pub fn a_query_has_ordered_values()
    ensures { (q : Shape) → IsWellFormed q → HasOrderedValues q }
{}
