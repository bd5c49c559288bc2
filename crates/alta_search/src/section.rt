// The first uses of a snapshot.
ghost use Rattle.std.specs.Prelude.{◌≡◌, map, All};
ghost use Rattle.alta_codec.specs.Rising.{IsRising};
ghost use Rattle.alta_content.specs.Rows.{end_of};
ghost use Rattle.alta_content.specs.Ends.{ShowsRising};
ghost use Rattle.alta_search.specs.Lists.{IsCut, test_at, lists_at, keys_at};
ghost use Rattle.alta_search.specs.Met.{IsExact, IsSingle};
ghost use Rattle.alta_search.specs.View.{IsView};

use crate::lists::TestLists;
use alta_codec::Loc;
use alta_content::AllRows;
use std::marker::Model;

/// The first uses of a snapshot, borrowed, with all its rows and deleted ends. Contracts see the snapshot of these uses alone.
#[derive(Drop)]
pub struct Section<'a> {
    tests: &'a [TestLists],
    uses: &'a [usize],
    rows: &'a AllRows,
    gone: &'a [Loc],
}

impl<'a> Model for Section<'a> {
    ghost use Rattle.std.specs.Prelude.{map};
    ghost use Rattle.alta_search.specs.Lists.{test_at, lists_at, keys_at};
    ghost use Rattle.alta_search.specs.View.{View, IsView};

    ghost Value = { View };

    ghost view = { λ s. record {
      tests = map (test_at s.tests.now) s.uses.now;
      keys = map (keys_at s.tests.now) s.uses.now;
      cuts = map (lists_at s.tests.now) s.uses.now;
      rows = s.rows.now;
      gone = s.gone.now;
    } };

    ghost invariant = { λ s. IsView (record {
      tests = map (test_at s.tests.now) s.uses.now;
      keys = map (keys_at s.tests.now) s.uses.now;
      cuts = map (lists_at s.tests.now) s.uses.now;
      rows = s.rows.now;
      gone = s.gone.now;
    }) };
}

impl<'a> Section<'a> {
    /// These uses of tests, with the rows and the deleted ends.
    pub(crate) fn new(
        tests: &'a [TestLists],
        uses: &'a [usize],
        rows: &'a AllRows,
        gone: &'a [Loc],
    ) -> Section<'a>
        requires { IsView (record {
          tests = map (test_at tests.now) uses.now;
          keys = map (keys_at tests.now) uses.now;
          cuts = map (lists_at tests.now) uses.now;
          rows = rows.now;
          gone = gone.now;
        }) }
        ensures { result ≡ record {
          tests = map (test_at tests.now) uses.now;
          keys = map (keys_at tests.now) uses.now;
          cuts = map (lists_at tests.now) uses.now;
          rows = rows.now;
          gone = gone.now;
        } }
    {
        Section {
            tests,
            uses,
            rows,
            gone,
        }
    }

    /// The tests with their lists, and the index of the test of each use.
    pub fn uses(&self) -> (&'a [TestLists], &'a [usize])
        ensures cuts { map (lists_at result.0.now) result.1.now ≡ self.now.cuts }
        ensures cut { All IsCut (map (lists_at result.0.now) result.1.now) }
        ensures used { map (test_at result.0.now) result.1.now ≡ self.now.tests }
        ensures single { All IsExact self.now.tests → All IsSingle (map (lists_at result.0.now) result.1.now) }
    {
        (self.tests, self.uses)
    }

    /// The rows of all documents.
    pub(crate) fn rows(&self) -> &'a AllRows
        ensures value { result.now ≡ self.now.rows }
        ensures rising { IsRising (map end_of result.now) }
    {
        self.rows
    }

    /// The deleted ends.
    pub fn gone(&self) -> &'a [Loc]
        ensures { ShowsRising self.now.gone result.now }
    {
        self.gone
    }
}
