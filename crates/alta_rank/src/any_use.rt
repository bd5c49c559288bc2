// Queries whose answers are the documents with a score.
ghost use Rattle.std.specs.Prelude.{◌≡◌, map};
ghost use Rattle.alta_machine.specs.Shape.{shapes_of};
ghost use Rattle.alta_query.specs.View.{shape, atom_view};
ghost use Rattle.alta_rank.specs.AnyUse.{is_one, atom_use, shape_use, each_use, asks_any_use};

use alta_machine::Test;
use alta_query::{Atom, Query};

/// Whether a query asks for one of its uses: for a word, a prefix or a name, or for one of several of these. Its answers are the
/// documents with a score, as [`crate::a_score_is_of_an_answer`] says.
pub fn asks_any_use(query: &Query) -> bool
    ensures { result ≡ asks_any_use (shape query.now) }
{
    match query {
        Query::Atom(atom) => has_one_use(atom),
        Query::Or(members) => each_has_one_use(members),
        Query::And(_) | Query::Not(_) => false,
    }
}

/// Whether each of these queries is an atom with one use.
fn each_has_one_use(members: &[Query]) -> bool
    ensures { result ≡ each_use (shapes_of (map shape members.now)) }
{
    for member in members {
        if !is_one_use(member) {
            return false;
        }
    }
    true
}

/// Whether a query is an atom with one use.
fn is_one_use(query: &Query) -> bool
    ensures { result ≡ shape_use (shape query.now) }
{
    match query {
        Query::Atom(atom) => has_one_use(atom),
        Query::And(_) | Query::Or(_) | Query::Not(_) => false,
    }
}

/// Whether an atom has one use.
fn has_one_use(atom: &Atom) -> bool
    ensures { result ≡ atom_use (atom_view atom.now) }
{
    match atom {
        Atom::Words { tests, .. } => has_one(tests.as_slice()),
        Atom::Prefix { .. } | Atom::Name { .. } => true,
        Atom::Near { .. } | Atom::Value { .. } => false,
    }
}

/// Whether there is one test.
fn has_one(tests: &[Test]) -> bool
    ensures { result ≡ is_one tests.now }
{
    match tests {
        [_] => true,
        _ => false,
    }
}
