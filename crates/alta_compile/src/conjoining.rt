// Queries that are conjunctions of words and negated words, alternatives of words, a word in titles, or a stem.
ghost use Rattle.std.specs.Prelude.{◌≡◌, ◌||◌, [], ◌∷◌, ◌++◌, cond, is_some, map, IfOk, OnOk};
ghost use Rattle.std.specs.Option.{option_copied};
ghost use Rattle.alta_machine.specs.Shape.{shapes_of};
ghost use Rattle.alta_query.specs.View.{shape, atom_view};
ghost use Rattle.alta_compile.specs.Conjoined.{atom_word, word_in, word_against, listed, only, is_some_word, conjunction_in, conjunction_of, each_word, is_either, atom_titled, titled_word, atom_stem, stem_in};

use crate::asked::Conjunction;
use alta_machine::{Test, Tests};
use alta_query::{Atom, Query};
use std::alloc::{AllocError, Global};
use std::slice;

/// The words and the negated words of a query that has nothing else: of one word that may stand anywhere, or of an And of such
/// words and of NOTs of such words, with a word that is not under a NOT. `None` for each other query, as of a phrase,
/// a word in the title, a stem, a name, a NEAR, an Or or a NOT. Fails for want of memory alone.
pub fn conjunction(alloc: Global, query: &Query) -> Result<Option<Conjunction>, AllocError>
    ensures { IfOk result (λ o. o ≡ conjunction_of (shape query.now)) }
{
    match query {
        Query::Atom(_) => gather(alloc, slice::from_ref(query)),
        Query::And(members) => gather(alloc, members),
        Query::Or(_) | Query::Not(_) => Ok(None),
    }
}

/// Whether a query is an Or of words that may stand anywhere, and of nothing else.
pub fn asks_either(query: &Query) -> bool
    ensures { result ≡ is_either (shape query.now) }
{
    match query {
        Query::Or(members) => each_is_word(members),
        Query::Atom(_) | Query::And(_) | Query::Not(_) => false,
    }
}

/// Whether a query is one word in titles, and nothing else.
pub fn asks_title(query: &Query) -> bool
    ensures { result ≡ is_some (titled_word (shape query.now)) }
{
    match query {
        Query::Atom(atom) => is_titled(atom),
        Query::And(_) | Query::Or(_) | Query::Not(_) => false,
    }
}

/// Whether a query is one stem that may stand anywhere, and nothing else.
pub fn asks_stem(query: &Query) -> bool
    ensures { result ≡ is_some (stem_in (shape query.now)) }
{
    match query {
        Query::Atom(atom) => is_stem(atom),
        Query::And(_) | Query::Or(_) | Query::Not(_) => false,
    }
}

/// Whether each member is a word.
fn each_is_word(members: &[Query]) -> bool
    ensures { result ≡ each_word (shapes_of (map shape members.now)) }
{
    for member in members {
        if !is_word(member) {
            return false;
        }
    }
    true
}

/// Whether a query is a word.
fn is_word(query: &Query) -> bool
    ensures { result ≡ is_some (word_in (shape query.now)) }
{
    match word(query) {
        Some(_) => true,
        None => false,
    }
}

/// The words and the negated words of the members, if each is one or the other and one is a word.
fn gather(alloc: Global, members: &[Query]) -> Result<Option<Conjunction>, AllocError>
    ensures { IfOk result (λ o. o ≡ conjunction_in (shapes_of (map shape members.now))) }
{
    let mut words = Tests::new(alloc);
    let mut negated = Tests::new(alloc);
    for member in members {
        if !add(&mut words, &mut negated, member)? {
            return Ok(None);
        }
    }
    Ok(some_word(words, negated))
}

/// The conjunction of these words, if there is one.
fn some_word(words: Tests, negated: Tests) -> Option<Conjunction>
    ensures { result ≡ cond (is_some_word words) (Some (record { words = words; negated = negated })) None }
{
    if words.len() == 0 {
        None
    } else {
        Some(Conjunction { words, negated })
    }
}

/// Adds a member that is a word or a NOT of one, and answers whether it is.
fn add(words: &mut Tests, negated: &mut Tests, member: &Query) -> Result<bool, AllocError>
    ensures found { IfOk result (λ b. b ≡ (is_some (word_in (shape member.now))
        || is_some (word_against (shape member.now)))) }
    ensures words { OnOk result (words.new ≡ words.old ++ listed (word_in (shape member.now))) }
    ensures negated { OnOk result (negated.new ≡ negated.old ++ listed (word_against (shape member.now))) }
{
    if let Some(test) = word(member) {
        words.push(test.copy()?)?;
        return Ok(true);
    }
    if let Some(test) = against(member) {
        negated.push(test.copy()?)?;
        return Ok(true);
    }
    Ok(false)
}

/// The test of the word that a query is.
fn word(query: &Query) -> Option<&Test>
    ensures { option_copied result ≡ word_in (shape query.now) }
{
    match query {
        Query::Atom(atom) => atom_test(atom),
        Query::And(_) | Query::Or(_) | Query::Not(_) => None,
    }
}

/// The test of the word that a query is a NOT of.
fn against(query: &Query) -> Option<&Test>
    ensures { option_copied result ≡ word_against (shape query.now) }
{
    match query {
        Query::Not(operand) => word(operand),
        Query::Atom(_) | Query::And(_) | Query::Or(_) => None,
    }
}

/// The test of a text of one word that may stand anywhere.
fn atom_test(atom: &Atom) -> Option<&Test>
    ensures { option_copied result ≡ atom_word (atom_view atom.now) }
{
    match atom {
        Atom::Words {
            title: false,
            tests,
            ..
        } => only_test(tests.as_slice()),
        _ => None,
    }
}

/// The test of a list of one, where it asks for one term.
fn only_test(tests: &[Test]) -> Option<&Test>
    ensures { option_copied result ≡ only tests.now }
{
    match tests {
        [test] => exact(test),
        _ => None,
    }
}

/// A test that asks for one term.
fn exact(test: &Test) -> Option<&Test>
    ensures { option_copied result ≡ only (test.now ∷ []) }
{
    match test {
        Test::Is(_) => Some(test),
        Test::Begins(_) => None,
    }
}

/// Whether an atom is one word in titles.
fn is_titled(atom: &Atom) -> bool
    ensures { result ≡ is_some (atom_titled (atom_view atom.now)) }
{
    match atom {
        Atom::Words {
            title: true,
            tests,
            ..
        } => is_only(tests.as_slice()),
        _ => false,
    }
}

/// Whether there is one test, which asks for one term.
fn is_only(tests: &[Test]) -> bool
    ensures { result ≡ is_some (only tests.now) }
{
    match only_test(tests) {
        Some(_) => true,
        None => false,
    }
}

/// Whether an atom is a stem that may stand anywhere.
fn is_stem(atom: &Atom) -> bool
    ensures { result ≡ is_some (atom_stem (atom_view atom.now)) }
{
    match atom {
        Atom::Prefix { title: false, .. } => true,
        _ => false,
    }
}
