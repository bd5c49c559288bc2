// The entry that a payload spells, if its rules are kept.
ghost use Rattle.std.specs.Prelude.{◌≡◌, ◌↔◌, ◌+◌, ◌<◌, ◌≤◌, ◌^◌, IsTrue, IsUtf8, IfOk, MatchOption, length, take};
ghost use Rattle.alta_codec.specs.Name.{IsName};
ghost use Rattle.alta_journal.specs.Entry.{Lacks};
ghost use Rattle.alta_journal.specs.Found.{IsFound, AreFound};
ghost use Rattle.alta_layout.specs.Wide.{of_eight};
ghost use Rattle.alta_journal.specs.Reading.{cut, name_in, text_in, texts_in, add_in, delete_in, replace_in, entry_in};

use crate::places::{ADD, DELETE, REPLACE, TEXTS_BYTES};
use crate::{Entry, is_old};
use alta_codec::{Text, name_ok};
use std::alloc::{AllocError, Global};

/// The entry that this payload spells. `None` where there is none that keeps the rules of a record under a root of this
/// version.
pub(crate) fn entry_from(
    alloc: Global,
    version: u8,
    payload: &[u8],
) -> Result<Option<Entry>, AllocError>
    ensures { IfOk result (λ o. IsFound version (entry_in payload.now) o) }
{
    let Some(entry) = newest_from(alloc, payload)? else {
        return Ok(None);
    };
    if version == 1 && !is_old(&entry.lent()) {
        return Ok(None);
    }
    Ok(Some(entry))
}

// The entry that this payload spells, by the newest rules.
#[tactic(auto, unfolding(crate::specs::Reading::entry_in))]
fn newest_from(alloc: Global, payload: &[u8]) -> Result<Option<Entry>, AllocError>
    ensures { IfOk result (λ o. IsFound 2 (entry_in payload.now) o) }
{
    let [kind, fields @ ..] = payload else {
        return Ok(None);
    };
    match *kind {
        ADD => add_from(alloc, fields),
        DELETE => Ok(delete_from(fields)),
        REPLACE => replace_from(alloc, fields),
        _ => Ok(None),
    }
}

#[tactic(auto, unfolding(crate::specs::Reading::delete_in, alta_layout::specs::Wide::of_eight))]
fn delete_from(fields: &[u8]) -> Option<Entry>
    ensures { IsFound 2 (delete_in fields.now) result }
{
    let [a, b, c, d, e, f, g, h] = fields else {
        return None;
    };
    Some(Entry::Delete {
        number: u64::from_be_bytes([*a, *b, *c, *d, *e, *f, *g, *h]),
    })
}

fn add_from(alloc: Global, fields: &[u8]) -> Result<Option<Entry>, AllocError>
    ensures { IfOk result (λ o. IsFound 2 (add_in fields.now) o) }
{
    let Some((name, title, body)) = texts_from(alloc, fields)? else {
        return Ok(None);
    };
    Ok(Some(Entry::Add { name, title, body }))
}

fn replace_from(alloc: Global, fields: &[u8]) -> Result<Option<Entry>, AllocError>
    ensures { IfOk result (λ o. IsFound 2 (replace_in fields.now) o) }
{
    let Some((number, fields)) = split_number(fields) else {
        return Ok(None);
    };
    let Some((name, title, body)) = texts_from(alloc, fields)? else {
        return Ok(None);
    };
    Ok(Some(Entry::Replace {
        number,
        name,
        title,
        body,
    }))
}

// A number of eight bytes, and what follows.
#[tactic(auto, unfolding(crate::specs::Reading::cut, alta_layout::specs::Wide::of_eight))]
fn split_number(bytes: &[u8]) -> Option<(u64, &[u8])>
    ensures { MatchOption result (cut 8 bytes.now ≡ None) (λ x. (cut 8 bytes.now ≡ Some (take 8 bytes.now, x.1.now))
        × (x.0 ≡ of_eight (take 8 bytes.now)) × (x.0 < 2 ^ 64)) }
{
    let [a, b, c, d, e, f, g, h, rest @ ..] = bytes else {
        return None;
    };
    Some((u64::from_be_bytes([*a, *b, *c, *d, *e, *f, *g, *h]), rest))
}

// The name, the title and the body that these fields spell, if they keep their rules.
fn texts_from(alloc: Global, fields: &[u8]) -> Result<Option<(Text, Text, Text)>, AllocError>
    ensures { IfOk result (λ o. AreFound (texts_in fields.now) o) }
{
    let Some((name, title, body)) = fields_of(fields) else {
        return Ok(None);
    };
    if !are_short(name, title, body) {
        return Ok(None);
    }
    if !lacks(title, b'\t') {
        return Ok(None);
    }
    let Some(name) = name_text(name) else {
        return Ok(None);
    };
    let Some(title) = line(title) else {
        return Ok(None);
    };
    let Some(body) = line(body) else {
        return Ok(None);
    };
    Ok(Some((
        Text::of(alloc, name)?,
        Text::of(alloc, title)?,
        Text::of(alloc, body)?,
    )))
}

// Whether three texts are not too long together.
fn are_short(name: &[u8], title: &[u8], body: &[u8]) -> bool
    ensures { IsTrue result ↔ (length name.now + length title.now + length body.now ≤ TEXTS_BYTES) }
{
    let limit = TEXTS_BYTES as usize;
    name.len() <= limit
        && title.len() <= limit - name.len()
        && body.len() <= limit - name.len() - title.len()
}

// The bytes as text, where they are a name.
fn name_text(bytes: &[u8]) -> Option<&str>
    ensures { MatchOption result (IsName bytes.now → ⊥) (λ s. (s.now ≡ bytes.now) × IsName bytes.now) }
{
    if !name_ok(bytes) {
        return None;
    }
    match str::from_utf8(bytes) {
        Ok(name) => Some(name),
        Err(_) => None,
    }
}

// The bytes as text, where they are UTF-8 without a newline.
fn line(bytes: &[u8]) -> Option<&str>
    ensures { MatchOption result (IsUtf8 bytes.now × Lacks 10 bytes.now
        → ⊥) (λ s. (s.now ≡ bytes.now) × IsUtf8 bytes.now × Lacks 10 bytes.now) }
{
    if !lacks(bytes, b'\n') {
        return None;
    }
    str::from_utf8(bytes).ok()
}

pub(crate) fn lacks(bytes: &[u8], value: u8) -> bool
    ensures { IsTrue result ↔ Lacks value bytes.now }
{
    bytes.iter().all(|byte| *byte != value)
}

// A name, a title and a body, and nothing behind them.
#[tactic(auto, unfolding(crate::specs::Reading::texts_in))]
fn fields_of(bytes: &[u8]) -> Option<(&[u8], &[u8], &[u8])>
    ensures { MatchOption result (texts_in bytes.now ≡ None) (λ x. texts_in bytes.now
        ≡ Some (x.0.now, x.1.now, x.2.now)) }
{
    let (name, rest) = split_name(bytes)?;
    let (title, rest) = split_text(rest)?;
    let (body, rest) = split_text(rest)?;
    if rest.is_empty() {
        Some((name, title, body))
    } else {
        None
    }
}

// A name behind its length, and what follows.
#[tactic(auto, unfolding(crate::specs::Reading::name_in))]
fn split_name(bytes: &[u8]) -> Option<(&[u8], &[u8])>
    ensures { MatchOption result (name_in bytes.now ≡ None) (λ x. name_in bytes.now ≡ Some (x.0.now, x.1.now)) }
{
    match bytes {
        [] => None,
        [len, rest @ ..] => split(rest, *len as usize),
    }
}

// A text behind its length, and what follows.
#[tactic(auto, unfolding(crate::specs::Reading::text_in, crate::specs::Reading::of_four))]
fn split_text(bytes: &[u8]) -> Option<(&[u8], &[u8])>
    ensures { MatchOption result (text_in bytes.now ≡ None) (λ x. text_in bytes.now ≡ Some (x.0.now, x.1.now)) }
{
    let [a, b, c, d, rest @ ..] = bytes else {
        return None;
    };
    split(rest, u32::from_be_bytes([*a, *b, *c, *d]) as usize)
}

// The first n bytes and the others, where there are so many.
#[tactic(auto, unfolding(crate::specs::Reading::cut))]
fn split(bytes: &[u8], n: usize) -> Option<(&[u8], &[u8])>
    ensures { MatchOption result (cut n bytes.now ≡ None) (λ x. cut n bytes.now ≡ Some (x.0.now, x.1.now)) }
{
    if bytes.len() < n {
        return None;
    }
    Some(bytes.split_at(n))
}
