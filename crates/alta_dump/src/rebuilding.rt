// The line of a document, from what walks over the lists saw of its cells.
ghost use Rattle.std.specs.Prelude.{◌≡◌, ℕ, ◌+◌, ◌<◌, List, true, false, nat_lt, length, map, position, count_by, slice_index, MatchOption, IfOk, IfSome, string_bytes};
ghost use Rattle.std.specs.Option.{option_map};
ghost use Rattle.alta_codec.specs.Bytes.{has_byte};
ghost use Rattle.alta_codec.specs.Name.{IsName};
ghost use Rattle.alta_machine.specs.DumpLines.{body_text, line_of, title_text};
ghost use Rattle.alta_machine.specs.Plain.{ends_title, is_plain};
ghost use Rattle.alta_dump.specs.Seen.{AreFolded, AreSeen, IsRebuiltFrom, IsTitlePlace, is_held, terms_of};
ghost use Rattle.alta_machine.specs.declared.document.Document.{Document};
ghost use Rattle.alta_machine.specs.Command.{adds, spelled};
ghost use Rattle.alta_machine.specs.declared.line.TheConstants.{LINE_LIMIT as line_limit};

use crate::alike::{comes_again, is_place};
use crate::texts::{are_words, text};
use alta_gather::PackedHeld;
use alta_machine::LINE_LIMIT;
use alta_search::TermLists;
use std::alloc::{AllocError, Global};

/// The line that adds a document again, if there is one: of a document with this name, in whose cells walks over the lists saw
/// which folded word each holds, by the index of its term, and where titles end, and which ends at its last cell. Fails for want of
/// memory alone.
pub(crate) fn line(
    alloc: Global,
    terms: &[TermLists],
    name: &str,
    words: &[PackedHeld],
    titles: &[PackedHeld],
) -> Result<Option<String>, AllocError>
    requires titles { length titles.now ≡ length words.now }
    ensures line { (d : Document) → d.name ≡ name.now → IsName d.name
        → AreSeen (terms_of terms.now) words.now titles.now d.cells
        → IfOk result (λ line. option_map string_bytes line ≡ line_of d) }
    ensures begins { IfOk result (λ line. IfSome line (λ l. slice_index (string_bytes l) 0 ≡ 97)) }
{
    match plain_place(terms, words, titles) {
        Some(place) => line_at(alloc, terms, name, words, titles, place),
        None => Ok(None),
    }
}

// The line of a plain document whose title ends at this place.
fn line_at(
    alloc: Global,
    terms: &[TermLists],
    name: &str,
    words: &[PackedHeld],
    titles: &[PackedHeld],
    place: usize,
) -> Result<Option<String>, AllocError>
    requires titles { length titles.now ≡ length words.now }
    requires some { 0 < place }
    requires within { place + 1 < length words.now }
    ensures line { (d : Document) → IsRebuiltFrom (terms_of terms.now) name.now words.now titles.now d
        → IsTitlePlace place d.cells → IfOk result (λ line. option_map string_bytes line ≡ line_of d) }
    ensures begins { IfOk result (λ line. IfSome line (λ l. slice_index (string_bytes l) 0 ≡ 97)) }
{
    let title = text(alloc, terms, &words[1..place])?;
    let body = text(alloc, terms, &words[place + 1..words.len() - 1])?;
    line_with(alloc, terms, name, &title, &body, words, titles)
}

// The line of a plain document with this title and body.
fn line_with(
    alloc: Global,
    terms: &[TermLists],
    name: &str,
    title: &str,
    body: &str,
    words: &[PackedHeld],
    titles: &[PackedHeld],
) -> Result<Option<String>, AllocError>
    requires { length titles.now ≡ length words.now }
    ensures line { (d : Document) → IsRebuiltFrom (terms_of terms.now) name.now words.now titles.now d
        → title.now ≡ title_text d.cells → body.now ≡ body_text d.cells
        → IfOk result (λ line. option_map string_bytes line ≡ line_of d) }
    ensures begins { IfOk result (λ line. IfSome line (λ l. slice_index (string_bytes l) 0 ≡ 97)) }
{
    if has_tab(title) {
        return Ok(None);
    }
    let again = comes_again(alloc, terms, name, title, body, words, titles)?;
    if !again {
        return Ok(None);
    }
    let line = put_line(alloc, name, title, body)?;
    if is_long(&line) {
        return Ok(None);
    }
    Ok(Some(line))
}

// Whether a line is too long.
fn is_long(line: &str) -> bool
    ensures { result ≡ nat_lt line_limit (length line.now) }
{
    line.len() > LINE_LIMIT
}

// Whether the text has a tab.
fn has_tab(text: &str) -> bool
    ensures { result ≡ has_byte 9 text.now }
{
    text.as_bytes().iter().any(|byte| *byte == b'\t')
}

// The place of the cell that ends the title, if the document is plain.
fn plain_place(terms: &[TermLists], words: &[PackedHeld], titles: &[PackedHeld]) -> Option<usize>
    ensures plain { (cells : List (List (List ℕ))) → AreFolded (terms_of terms.now) words.now cells
        → map is_held titles.now ≡ map ends_title cells
        → MatchOption result (is_plain cells ≡ false) (λ place. (is_plain cells ≡ true) × IsTitlePlace place cells) }
    ensures within { IfSome result (λ place. (0 < place) × (place + 1 < length titles.now)) }
{
    if !are_words(terms, words) {
        return None;
    }
    if count_places(titles) != 1 {
        return None;
    }
    let place = title_place(titles)?;
    if place == 0 {
        return None;
    }
    if titles.len() - place == 1 {
        return None;
    }
    Some(place)
}

// At how many places a title ends.
fn count_places(titles: &[PackedHeld]) -> usize
    ensures { result ≡ count_by is_held titles.now }
{
    titles.iter().filter(|held| is_place(**held)).count()
}

// The first place where a title ends.
fn title_place(titles: &[PackedHeld]) -> Option<usize>
    ensures value { result ≡ position is_held titles.now }
    ensures within { IfSome result (λ place. place < length titles.now) }
{
    titles.iter().position(|held| is_place(*held))
}

// The line that adds a document.
fn put_line(alloc: Global, name: &str, title: &str, body: &str) -> Result<String, AllocError>
    ensures { IfOk result (λ line. string_bytes line ≡ spelled (adds name.now title.now body.now)) }
{
    let mut line = String::from_str(alloc, "add ")?;
    line.push_str(name)?;
    line.push('\t')?;
    line.push_str(title)?;
    line.push('\t')?;
    line.push_str(body)?;
    Ok(line)
}
