// From query to text.

ghost use Rattle.std.specs.Prelude.{◌≡◌, ℕ, List, ◌++◌, string_bytes, IfOk, OnOk};
ghost use Rattle.alta_machine.specs.Shape.{Shape, value};
ghost use Rattle.alta_machine.specs.Grammar.{ReadsQuery};
ghost use Rattle.alta_machine.specs.Spots.{spots};
ghost use Rattle.alta_query.specs.View.{shape, atom_view, side_view};
ghost use Rattle.alta_machine.specs.Token.{operand, near_word, tokens_of};
ghost use Rattle.alta_machine.specs.Canon.{canon, or_between, parens_if, is_any, is_compound, atom_tokens, of_side};
ghost use Rattle.alta_machine.specs.Spelling.{quoted, title_text, spaced, spelled, with_tokens, canonical};

use crate::query::{Atom, Query, Side};
use alta_codec::Text;
use std::alloc::{AllocError, Global};

/// The canonical spelling of a query: its tokens with one space between them, words in quotes, no word AND, and
/// parentheses round an And or an Or in an And or under a NOT, and round an Or in an Or. Fails for want of memory alone.
/// The time is linear in the spelling.
#[tactic(auto, unfolding(alta_machine::specs::Spelling::canonical))]
pub fn print(alloc: Global, query: &Query) -> Result<Text, AllocError>
    ensures { IfOk result (λ t. t ≡ canonical (shape query.now)) }
{
    let mut out = String::new(alloc);
    put_query(alloc, &mut out, query)?;
    Ok(Text::from_string(out))
}

/// A query without parentheses round the whole.
#[cycle(put)]
#[tactic(auto, using(crate::proofs::Printed::with_tokens_append))]
fn put_query(alloc: Global, out: &mut String, query: &Query) -> Result<(), AllocError>
    ensures { OnOk result (string_bytes out.new ≡ with_tokens (string_bytes out.old) (canon (shape query.now))) }
{
    match query {
        Query::Atom(atom) => put_atom(alloc, out, atom),
        Query::And(members) => {
            for member in members {
                put_in(alloc, out, member, compound(member))?;
            }
            Ok(())
        }
        Query::Or(members) => {
            let mut first = true;
            for member in members {
                put_or(out, first)?;
                put_in(alloc, out, member, either(member))?;
                first = false;
            }
            Ok(())
        }
        Query::Not(operand) => {
            put_word(out, "NOT")?;
            put_in(alloc, out, operand, compound(operand))
        }
    }
}

/// A query, maybe in parentheses.
#[cycle(put)]
#[tactic(auto, using(crate::proofs::Printed::with_tokens_append))]
fn put_in(alloc: Global, out: &mut String, query: &Query, parens: bool) -> Result<(), AllocError>
    ensures { OnOk result (string_bytes out.new
        ≡ with_tokens (string_bytes out.old) (parens_if parens (canon (shape query.now)))) }
{
    if parens {
        put_word(out, "(")?;
        put_query(alloc, out, query)?;
        put_word(out, ")")
    } else {
        put_query(alloc, out, query)
    }
}

/// An OR between two members.
fn put_or(out: &mut String, first: bool) -> Result<(), AllocError>
    ensures { OnOk result (string_bytes out.new ≡ with_tokens (string_bytes out.old) (or_between first)) }
{
    if first { Ok(()) } else { put_word(out, "OR") }
}

/// Whether a query is an Or.
fn either(query: &Query) -> bool
    ensures { result ≡ is_any (shape query.now) }
{
    matches!(query, Query::Or(_))
}

/// Whether a query is an And or an Or.
fn compound(query: &Query) -> bool
    ensures { result ≡ is_compound (shape query.now) }
{
    matches!(query, Query::And(_) | Query::Or(_))
}

fn put_atom(alloc: Global, out: &mut String, atom: &Atom) -> Result<(), AllocError>
    ensures { OnOk result (string_bytes out.new
        ≡ with_tokens (string_bytes out.old) (atom_tokens (atom_view atom.now))) }
{
    match atom {
        Atom::Words { title, text, .. } => {
            put_space(out)?;
            put_title(out, *title)?;
            put_quoted(out, text.as_str())
        }
        Atom::Prefix { title, stem, .. } => {
            put_space(out)?;
            put_title(out, *title)?;
            out.push_str(stem.as_str())?;
            out.push_str("*")
        }
        Atom::Name { name } => {
            put_space(out)?;
            out.push_str("name:")?;
            out.push_str(name.as_str())
        }
        Atom::Value { low, high } => {
            put_space(out)?;
            put_value(alloc, out, *low, *high)
        }
        Atom::Near {
            left,
            distance,
            right,
        } => {
            put_side(out, left)?;
            put_near(alloc, out, *distance)?;
            put_side(out, right)
        }
    }
}

fn put_side(out: &mut String, side: &Side) -> Result<(), AllocError>
    ensures { OnOk result (string_bytes out.new ≡ spaced (string_bytes out.old)
        ++ spelled (operand (of_side (side_view side.now)))) }
{
    put_space(out)?;
    match side {
        Side::Word { text, .. } => put_quoted(out, text.as_str()),
        Side::Stem { stem, .. } => {
            out.push_str(stem.as_str())?;
            out.push_str("*")
        }
    }
}

fn put_near(alloc: Global, out: &mut String, distance: u16) -> Result<(), AllocError>
    ensures { OnOk result (string_bytes out.new ≡ spaced (string_bytes out.old) ++ spelled (near_word distance)) }
{
    let digits = distance.to_string(alloc)?;
    put_space(out)?;
    out.push_str("NEAR/")?;
    out.push_str(digits.as_str())
}

fn put_value(alloc: Global, out: &mut String, low: u32, high: u32) -> Result<(), AllocError>
    ensures { OnOk result (string_bytes out.new ≡ string_bytes out.old ++ spelled (operand (value low high))) }
{
    let first = low.to_string(alloc)?;
    let last = high.to_string(alloc)?;
    out.push_str("value:")?;
    out.push_str(first.as_str())?;
    out.push_str("..")?;
    out.push_str(last.as_str())
}

fn put_title(out: &mut String, title: bool) -> Result<(), AllocError>
    ensures { OnOk result (string_bytes out.new ≡ string_bytes out.old ++ title_text title) }
{
    if title {
        out.push_str("title:")
    } else {
        Ok(())
    }
}

fn put_quoted(out: &mut String, text: &str) -> Result<(), AllocError>
    ensures { OnOk result (string_bytes out.new ≡ string_bytes out.old ++ quoted text.now) }
{
    out.push_str("\"")?;
    out.push_str(text)?;
    out.push_str("\"")
}

/// One word, behind a space where something stands before it.
fn put_word(out: &mut String, word: &str) -> Result<(), AllocError>
    ensures { OnOk result (string_bytes out.new ≡ spaced (string_bytes out.old) ++ word.now) }
{
    put_space(out)?;
    out.push_str(word)
}

/// A space behind what was written.
fn put_space(out: &mut String) -> Result<(), AllocError>
    ensures { OnOk result (string_bytes out.new ≡ spaced (string_bytes out.old)) }
{
    if !out.as_str().is_empty() {
        out.push_str(" ")?;
    }
    Ok(())
}

/// A law, and nothing to run: the canonical spelling of a query that some text spells is read as that query.
pub fn reads_back()
    ensures { (text : List ℕ) (q : Shape) → ReadsQuery (tokens_of (spots text)) q
        → ReadsQuery (tokens_of (spots (canonical q))) q }
{}
