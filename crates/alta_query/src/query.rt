// Queries.
ghost use Rattle.std.specs.Prelude.{◌≡◌};
ghost use Rattle.alta_machine.specs.Patterns.{test_of, numbers_in};
ghost use Rattle.alta_query.specs.View.{side_view, atom_view};

use alta_codec::Text;
use alta_machine::{Test, Tests};

/// A side of a NEAR. In a query that was read its test is that of its text.
#[derive(Drop)]
pub enum Side {
    /// A text of exactly one word.
    Word {
        /// The text as it was written.
        text: Text,
        /// The test of its word.
        test: Test,
    },
    /// The words that begin so.
    Stem {
        /// The part before the `*`.
        stem: Text,
        /// The test of it.
        test: Test,
    },
}

impl Side {
    /// The test of the side.
    pub fn test(&self) -> &Test
        ensures { result.now ≡ test_of (side_view self.now) }
    {
        match self {
            Side::Word { test, .. } => test,
            Side::Stem { test, .. } => test,
        }
    }
}

/// What a query asks for at one place or at neighbouring ones. In a query that was read the tests are those of the text.
#[derive(Drop)]
pub enum Atom {
    /// The words of a text, one behind the other.
    Words {
        /// Whether they stand in the title.
        title: bool,
        /// The text as it was written.
        text: Text,
        /// A test for each word of the text, in order.
        tests: Tests,
    },
    /// A word that begins so.
    Prefix {
        /// Whether it stands in the title.
        title: bool,
        /// The part before the `*`.
        stem: Text,
        /// The test of it.
        test: Test,
    },
    /// Two sides at most so far apart, in either order.
    Near {
        /// The side written first.
        left: Side,
        /// How many places the two may be apart at most, from 1 to 1,000.
        distance: u16,
        /// The side written last.
        right: Side,
    },
    /// The document of this name.
    Name {
        /// The name.
        name: Text,
    },
    /// A number of the title or the body.
    Value {
        /// What it is at least.
        low: u32,
        /// What it is at most, `low` or above in a query that was read.
        high: u32,
    },
}

impl Atom {
    /// The lowest and the highest number of a value.
    pub fn numbers(&self) -> Option<(u32, u32)>
        ensures { result ≡ numbers_in (atom_view self.now) }
    {
        match self {
            Atom::Value { low, high } => Some((*low, *high)),
            _ => None,
        }
    }
}

/// A query.
#[derive(Drop)]
pub enum Query {
    /// What the atom asks for.
    Atom(Atom),
    /// All of these.
    And(Queries),
    /// One of these at least.
    Or(Queries),
    /// The documents that don't match.
    Not(Box<Query>),
}

/// The members of an And or an Or, two at least in a query that was read.
pub type Queries = Vec<Query>;
