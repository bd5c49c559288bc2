// The words of a query's text, and their tests.
ghost use Rattle.std.specs.Prelude.{◌≡◌, ◌∷◌, ◌<◌, IfOk, map, length, nat_le};
ghost use Rattle.std.specs.List.{All};
ghost use Rattle.std.specs.Str.{chars, IsUtf8};
ghost use Rattle.alta_text.specs.Words.{words_of, pair_of, folded_of};
ghost use Rattle.alta_query.specs.Texts.{HasTextTerm};
ghost use Rattle.alta_machine.specs.Words as spec;
ghost use Rattle.alta_machine.specs.Words.{has_words, is_stem};

use alta_codec::Bytes;
use alta_machine::kinds::{WORD, WORD_LIMIT, WRITTEN, term};
use alta_machine::{Test, Tests};
use alta_text::{Word, folded, words};
use std::alloc::{AllocError, Global};
use unicode_segmentation::UnicodeSegmentation;

/// How many words the text has.
#[tactic(auto, unfolding(alta_machine::specs::Words::tests_of))]
pub fn count_words(text: &str) -> usize
    ensures { result ≡ length (spec.tests_of text.now) }
{
    text.unicode_words().count()
}

/// Whether the text has words, and none that is too long.
#[tactic(auto, unfolding(alta_machine::specs::Words::has_words))]
pub fn has_short_words(alloc: Global, text: &str) -> Result<bool, AllocError>
    ensures { IfOk result (λ b. b ≡ has_words text.now) }
{
    let found = words(alloc, text)?;
    Ok(!found.is_empty() && are_short(&found))
}

/// Whether no word is too long.
fn are_short(found: &[Word]) -> bool
    ensures { result ≡ spec.are_short (map pair_of found.now) }
{
    for word in found {
        if !is_short(word) {
            return false;
        }
    }
    true
}

/// Whether the word is not too long, as written and as folded.
fn is_short(word: &Word) -> bool
    ensures { result ≡ spec.is_short (pair_of word.now) }
{
    word.written.as_str().len() <= WORD_LIMIT && word.folded.as_str().len() <= WORD_LIMIT
}

/// Whether the stem is one whole word of two characters at least, and not too long.
#[tactic(auto, unfolding(alta_machine::specs::Words::is_stem))]
pub fn is_whole_word(alloc: Global, stem: &str) -> Result<bool, AllocError>
    ensures { IfOk result (λ b. b ≡ is_stem stem.now) }
{
    let found = words(alloc, stem)?;
    Ok(is_only(&found, stem) && are_two(stem))
}

/// Whether the text has two characters at least.
fn are_two(text: &str) -> bool
    ensures { result ≡ nat_le 2 (length (chars text.now)) }
{
    text.chars().count() >= 2
}

/// Whether the only word is the whole text, and not too long.
fn is_only(found: &[Word], text: &str) -> bool
    ensures { result ≡ spec.is_only (map pair_of found.now) text.now }
{
    match found {
        [word] => word.written.as_str() == text && is_short(word),
        _ => false,
    }
}

/// The term that the cells of a word have: that of its folding where it is written so, else that of its spelling.
#[tactic(auto, unfolding(alta_machine::specs::Words::word_term))]
fn word_term(alloc: Global, written: &str, folded: &str) -> Result<Bytes, AllocError>
    ensures term { IfOk result (λ t. t ≡ spec.word_term (written.now, folded.now)) }
    ensures text { IfOk result IsUtf8 }
{
    if written == folded {
        text_term(alloc, WORD, folded)
    } else {
        text_term(alloc, WRITTEN, written)
    }
}

/// The term of a kind with a text behind it.
fn text_term(alloc: Global, kind: u8, rest: &str) -> Result<Bytes, AllocError>
    requires ascii { kind < 128 }
    ensures term { IfOk result (λ t. t ≡ kind ∷ rest.now) }
    ensures text { IfOk result IsUtf8 }
{
    term(alloc, kind, rest.as_bytes())
}

/// The tests of a text, one for each word.
#[tactic(auto, unfolding(alta_machine::specs::Words::tests_of))]
pub fn tests_of(alloc: Global, text: &str) -> Result<Tests, AllocError>
    ensures tests { IfOk result (λ tests. tests ≡ spec.tests_of text.now) }
    ensures text { IfOk result (All HasTextTerm) }
{
    let found = words(alloc, text)?;
    Ok(Tests::from_vec(each_test(alloc, &found)?))
}

/// A test for each word.
fn each_test(alloc: Global, found: &[Word]) -> Result<Vec<Test>, AllocError>
    ensures tests { IfOk result (λ tests. tests.items ≡ map spec.word_test (map pair_of found.now)) }
    ensures text { IfOk result (λ tests. All HasTextTerm tests.items) }
{
    let mut tests = Vec::new(alloc);
    for word in found {
        let test = word_test(alloc, word)?;
        tests.push(test)?;
    }
    Ok(tests)
}

/// The test of a word.
fn word_test(alloc: Global, word: &Word) -> Result<Test, AllocError>
    ensures test { IfOk result (λ test. test ≡ spec.word_test (pair_of word.now)) }
    ensures text { IfOk result HasTextTerm }
{
    let term = word_term(alloc, word.written.as_str(), word.folded.as_str())?;
    Ok(Test::Is(term))
}

/// The test of a text that has one word.
#[tactic(auto, unfolding(alta_machine::specs::Words::tests_of))]
pub fn first_test(alloc: Global, text: &str) -> Result<Test, AllocError>
    ensures test { IfOk result (λ test. test ≡ spec.first_test text.now) }
    ensures text { IfOk result HasTextTerm }
{
    let found = words(alloc, text)?;
    match found.first() {
        Some(word) => word_test(alloc, word),
        None => Ok(Test::Is(Bytes::from_vec(Vec::new(alloc)))),
    }
}

/// The test of a prefix.
pub fn stem_test(alloc: Global, stem: &str) -> Result<Test, AllocError>
    ensures test { IfOk result (λ test. test ≡ spec.stem_test stem.now) }
    ensures text { IfOk result HasTextTerm }
{
    let folding = folded(alloc, stem)?;
    Ok(Test::Begins(word_term(alloc, stem, folding.as_str())?))
}
