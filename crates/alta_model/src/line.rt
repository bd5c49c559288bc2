// Command lines.
// A line is tested by `simdutf8`, 64 bytes a step, where std's `from_utf8` decodes a character a step outside ASCII; its clauses are
// those of std's, so either does.
ghost use Rattle.std.specs.Prelude.{◌≡◌, ◌↔◌, option_map, take, drop, IfOk, OnOk, Err, if◌then◌else◌};
ghost use Rattle.std.specs.List.{list_any};
ghost use Rattle.std.specs.Str.{IsUtf8, bytes_eq};
ghost use Rattle.alta_machine.specs.Command.{Command, ReadsLine, is_tab};
ghost use Rattle.alta_machine.specs.LineFaults.{IsRefused, IsText, is_space, is_verb, verbs, word_of};
ghost use Rattle.alta_machine.specs.Reading.{command_in, parted, alone, with_rest, add_of, text_of, number_of, fetch_of, top_of, count_of, top_count_of};
ghost use Rattle.alta_machine.specs.Lines.{reading_of};
ghost use Rattle.alta_model.specs.Seen.{reading_in, command_of};

use alta_codec::read_count;
use alta_machine::{LINE_LIMIT, LineFault};
use simdutf8::compat::from_utf8;

/// What a line asks for, with its parts as they stand in the line.
#[derive(Clone, Copy, Debug, Drop)]
pub enum Line<'a> {
    Add {
        name: &'a str,
        title: &'a str,
        body: &'a str,
    },
    Delete {
        name: &'a str,
    },
    Search {
        text: &'a str,
    },
    Count {
        text: &'a str,
    },
    Explain {
        text: &'a str,
    },
    OpenCursor {
        text: &'a str,
    },
    Fetch {
        cursor: u64,
        count: u64,
    },
    Close {
        cursor: u64,
    },
    Top {
        count: u64,
        text: &'a str,
    },
    Flush,
    Merge,
    Step {
        count: u64,
    },
    Stats,
    Dump,
}

/// Reads a line, without its newline, as a command. The parts that a command names are borrowed from the line. It takes
/// no memory.
///
/// It is refused for the first of these that applies: `TooLong` where it has more than [`LINE_LIMIT`] bytes, `NotUtf8`
/// where it is not UTF-8, `Unknown` where the bytes up to its first space, or all, are no command's word, `Bad` where the rest
/// has not the form of that command.
pub fn read_line(line: &[u8]) -> Result<Line<'_>, LineFault>
    ensures reading { reading_in result ≡ reading_of line.now }
    ensures read { IfOk result (λ l. IsText line.now × ReadsLine line.now (command_of l)) }
    ensures only { (command : Command) → IsText line.now → ReadsLine line.now command
        → IfOk result (λ l. command_of l ≡ command) }
    ensures refused { (fault : LineFault) → (result ≡ Err fault) ↔ IsRefused line.now fault }
{
    if line.len() > LINE_LIMIT {
        return Err(LineFault::TooLong);
    }
    let Ok(text) = from_utf8(line) else {
        return Err(LineFault::NotUtf8);
    };
    match command(text) {
        Some(line) => Ok(line),
        None => Err(fault(text)),
    }
}

/// Why a text that no command spells is refused.
fn fault(text: &str) -> LineFault
    ensures { result ≡ (if is_verb (word_of text.now) then LineFault.Bad else LineFault.Unknown) }
{
    if is_verb(word(text)) {
        LineFault::Bad
    } else {
        LineFault::Unknown
    }
}

/// The bytes up to the first space, or all.
fn word(text: &str) -> &str
    ensures { result.now ≡ word_of text.now }
{
    match text.split_once(' ') {
        Some((word, _)) => word,
        None => text,
    }
}

/// Whether a word is a verb.
fn is_verb(word: &str) -> bool
    ensures { result ≡ is_verb word.now }
{
    if asks_by_text(word) {
        return true;
    }
    if asks_by_number(word) {
        return true;
    }
    works(word)
}

/// Whether a word is a verb behind which a document, a name or a query stands.
fn asks_by_text(word: &str) -> bool
    ensures { result ≡ list_any (λ verb. bytes_eq word.now verb) (take 6 verbs) }
{
    word == "add"
        || word == "delete"
        || word == "search"
        || word == "count"
        || word == "explain"
        || word == "open"
}

/// Whether a word is one of the next three verbs, behind which a number stands.
fn asks_by_number(word: &str) -> bool
    ensures { result ≡ list_any (λ verb. bytes_eq word.now verb) (take 3 (drop 6 verbs)) }
{
    word == "fetch" || word == "close" || word == "top"
}

/// Whether a word is one of the last five verbs, which are about the index.
fn works(word: &str) -> bool
    ensures { result ≡ list_any (λ verb. bytes_eq word.now verb) (drop 9 verbs) }
{
    word == "flush" || word == "merge" || word == "step" || word == "stats" || word == "dump"
}

#[tactic(auto, unfolding(alta_machine::specs::Reading::command_in, alta_machine::specs::Reading::parted))]
fn command(text: &str) -> Option<Line<'_>>
    ensures { option_map command_of result ≡ command_in text.now }
{
    match text.split_once(' ') {
        Some((word, rest)) => command_with(word, rest),
        None => command_alone(text),
    }
}

#[tactic(auto, unfolding(alta_machine::specs::Reading::alone))]
fn command_alone(word: &str) -> Option<Line<'_>>
    ensures { option_map command_of result ≡ alone word.now }
{
    if word == "flush" {
        return Some(Line::Flush);
    }
    if word == "merge" {
        return Some(Line::Merge);
    }
    if word == "stats" {
        return Some(Line::Stats);
    }
    if word == "dump" {
        return Some(Line::Dump);
    }
    None
}

#[tactic(auto, unfolding(alta_machine::specs::Reading::with_rest))]
fn command_with<'a>(word: &str, rest: &'a str) -> Option<Line<'a>>
    ensures { option_map command_of result ≡ with_rest word.now rest.now }
{
    if word == "add" {
        return document(rest);
    }
    match about_text(word, rest) {
        Some(line) => Some(line),
        None => about_numbers(word, rest),
    }
}

#[tactic(auto, unfolding(alta_machine::specs::Reading::add_of, alta_machine::specs::Reading::parted))]
fn document(rest: &str) -> Option<Line<'_>>
    ensures { option_map command_of result ≡ add_of rest.now }
{
    let (name, more) = rest.split_once('\t')?;
    let (title, body) = more.split_once('\t')?;
    Some(Line::Add { name, title, body })
}

#[tactic(auto, unfolding(alta_machine::specs::Reading::text_of))]
fn about_text<'a>(word: &str, rest: &'a str) -> Option<Line<'a>>
    ensures { option_map command_of result ≡ text_of word.now rest.now }
{
    if word == "delete" {
        return Some(Line::Delete { name: rest });
    }
    if word == "search" {
        return Some(Line::Search { text: rest });
    }
    if word == "count" {
        return Some(Line::Count { text: rest });
    }
    if word == "explain" {
        return Some(Line::Explain { text: rest });
    }
    if word == "open" {
        return Some(Line::OpenCursor { text: rest });
    }
    None
}

#[tactic(auto, unfolding(alta_machine::specs::Reading::number_of))]
fn about_numbers<'a>(word: &str, rest: &'a str) -> Option<Line<'a>>
    ensures { option_map command_of result ≡ number_of word.now rest.now }
{
    if word == "fetch" {
        return fetch(rest);
    }
    if word == "close" {
        let cursor = count(rest.as_bytes())?;
        return Some(Line::Close { cursor });
    }
    if word == "step" {
        let count = count(rest.as_bytes())?;
        return Some(Line::Step { count });
    }
    if word == "top" {
        return top(rest);
    }
    None
}

#[tactic(auto, unfolding(alta_machine::specs::Reading::fetch_of, alta_machine::specs::Reading::parted))]
fn fetch(rest: &str) -> Option<Line<'_>>
    ensures { option_map command_of result ≡ fetch_of rest.now }
{
    let (cursor, number) = rest.split_once(' ')?;
    let cursor = count(cursor.as_bytes())?;
    let count = count(number.as_bytes())?;
    Some(Line::Fetch { cursor, count })
}

#[tactic(auto, unfolding(alta_machine::specs::Reading::top_of, alta_machine::specs::Reading::parted))]
fn top(rest: &str) -> Option<Line<'_>>
    ensures { option_map command_of result ≡ top_of rest.now }
{
    let (count, text) = rest.split_once(' ')?;
    let count = top_count(count.as_bytes())?;
    Some(Line::Top { count, text })
}

// The count from 1 to 1,000,000 that the text spells.
#[tactic(auto, unfolding(alta_machine::specs::Reading::count_of))]
fn count(text: &[u8]) -> Option<u64>
    ensures { result ≡ count_of text.now }
{
    read_count(text, 7, 1_000_000)
}

// The count from 1 to 1,000 that the text spells.
#[tactic(auto, unfolding(alta_machine::specs::Reading::top_count_of))]
fn top_count(text: &[u8]) -> Option<u64>
    ensures { result ≡ top_count_of text.now }
{
    read_count(text, 4, 1_000)
}
