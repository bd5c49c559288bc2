// Words with their spans and their foldings.
ghost use Rattle.std.specs.Prelude.{◌≡◌, ◌+◌, ◌<◌, ◌^◌, length, map, IfOk};
ghost use Rattle.alta_text.specs.Words.{pair_of, words_of};
ghost use Rattle.alta_text.specs.Spans.{word_from, AreSpans};

use crate::folding::folded;
use alta_codec::Text;
use std::alloc::{AllocError, Global};
use unicode_segmentation::UnicodeSegmentation;

/// A word of a text.
#[derive(Drop)]
pub struct Word {
    /// The byte of the text at which the word begins.
    pub start: usize,
    /// The byte of the text behind the word's last one.
    pub end: usize,
    /// The word as the text has it.
    pub written: Text,
    /// The word by Unicode's full case folding.
    pub folded: Text,
}

/// The words of the text in order: the segments between Unicode's default word boundaries that hold a letter or a
/// digit. Fails for want of memory alone.
pub fn words(alloc: Global, text: &str) -> Result<Vec<Word>, AllocError>
    ensures value { IfOk result (λ found. map pair_of found.items ≡ words_of text.now) }
    ensures spans { IfOk result (λ found. AreSpans 0 text.now found.items) }
{
    let mut found = Vec::new(alloc);
    for (start, written) in text.unicode_word_indices() {
        let word = word_at(alloc, start, written)?;
        found.push(word)?;
    }
    Ok(found)
}

/// The word that is written at a place.
fn word_at(alloc: Global, start: usize, written: &str) -> Result<Word, AllocError>
    requires { start + length written.now < 2 ^ 64 }
    ensures { IfOk result (λ word. word ≡ word_from (start, written.now)) }
{
    Ok(Word {
        start,
        end: start + written.len(),
        written: Text::of(alloc, written)?,
        folded: Text::from_string(folded(alloc, written)?),
    })
}
