// Which documents match a query.
// It answers no line: the tests of the readers are compared with it.
ghost use Rattle.std.specs.Prelude.{◌≡◌, ◌↔◌, IsTrue};
ghost use Rattle.alta_machine.specs.Deciding.{is_match};
ghost use Rattle.alta_machine.specs.Matches.{Matches};
ghost use Rattle.alta_query.specs.View.{shape};

use crate::atom::atom_matches;
use alta_machine::{Cell, Document};
use alta_query::Query;

/// Whether a document matches a query: an atom by its pattern of tests and bounds, a value by one of its patterns, And, Or and
/// Not by truth. It takes no memory.
///
/// Each atom makes one pass over the document's cells, or two in a title, and a value one for each of at most 62 ranges. At each
/// cell a phrase of n words tests n cells at most, and every other atom one or two.
pub fn matches(query: &Query, document: &Document) -> bool
    ensures matched { IsTrue result ↔ Matches document.now.cells (shape query.now) }
    ensures decided { result ≡ is_match document.now.cells (shape query.now) }
{
    cells_match(query, document.cells.as_slice())
}

// Whether cells match a query. It calls itself as deep as the query is nested.
fn cells_match(query: &Query, cells: &[Cell]) -> bool
    ensures { IsTrue result ↔ Matches cells.now (shape query.now) }
{
    match query {
        Query::Atom(atom) => atom_matches(atom, cells),
        Query::And(queries) => {
            for query in queries {
                if !cells_match(query, cells) {
                    return false;
                }
            }
            true
        }
        Query::Or(queries) => {
            for query in queries {
                if cells_match(query, cells) {
                    return true;
                }
            }
            false
        }
        Query::Not(query) => !cells_match(query, cells),
    }
}
