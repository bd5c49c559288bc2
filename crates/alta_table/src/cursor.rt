// A row of the terms of a level.
use crate::parts::Parts;
use crate::walk::Walk;
use alta_codec::Extent;
use std::marker::Model;

/// A row of the terms of an open level, from which one may go on to the next. It keeps the row's term spelled out, and the row read.
/// Contracts see the level's tables and the number of the row.
#[derive(Drop)]
pub struct TermCursor<'a> {
    parts: &'a Parts,
    row: usize,
    walk: Walk<'a>,
}

impl<'a> Model for TermCursor<'a> {
    ghost use Rattle.alta_table.specs.Places.{AreParts, HasPassed, TermAt, tables_in};

    ghost Value = { TermAt };

    ghost view = { λ c. record { tables = tables_in c.parts.now; row = c.row } };

    ghost invariant = { λ c. AreParts c.parts.now × HasPassed c.parts.now.terms c.row c.walk };
}

impl<'a> TermCursor<'a> {
    ghost use Rattle.std.specs.Prelude.{◌≡◌, ◌+◌, ◌<◌, ◌≤◌, length, Some, slice_get, slice_index};
    ghost use Rattle.alta_table.specs.Marks.{rows_in};
    ghost use Rattle.alta_table.specs.Places.{AreParts, HasPassed, stream_extent, summary_extent, tables_in};
    ghost use Rattle.alta_table.specs.Tables.{total_of};
    ghost use Rattle.alta_table.specs.Terms.{counts_of, terms_of};

    // At a row.
    pub(crate) fn at(parts: &'a Parts, row: usize) -> TermCursor<'a>
        requires parts { AreParts parts.now }
        requires row { row < length (rows_in parts.now.terms) }
        ensures tables { result.tables ≡ tables_in parts.now }
        ensures row { result.row ≡ row }
    {
        TermCursor {
            parts,
            row,
            walk: parts.terms.walk_behind(row),
        }
    }

    // At a row that a walk has passed.
    pub(crate) fn behind(parts: &'a Parts, row: usize, walk: Walk<'a>) -> TermCursor<'a>
        requires parts { AreParts parts.now }
        requires passed { HasPassed parts.now.terms row walk }
        ensures tables { result.tables ≡ tables_in parts.now }
        ensures row { result.row ≡ row }
    {
        TermCursor { parts, row, walk }
    }

    /// The number of the row.
    pub fn row(&self) -> usize
        ensures row { result ≡ self.now.row }
        ensures within { result < length self.now.tables.terms }
    {
        self.row
    }

    /// Another cursor at the row.
    pub fn copy(&self) -> TermCursor<'a>
        ensures { result ≡ self.now }
    {
        TermCursor {
            parts: self.parts,
            row: self.row,
            walk: self.walk,
        }
    }

    /// Goes on to the next row, if there is one.
    pub fn next(&mut self)
        ensures tables { self.new.tables ≡ self.old.tables }
        ensures row { self.old.row + 1 < length self.old.tables.terms → self.new.row ≡ self.old.row + 1 }
    {
        if self.row + 1 < self.parts.terms.count {
            self.walk.pass();
            self.row += 1;
        }
    }

    /// The term.
    pub fn term(&self) -> &[u8]
        ensures { slice_get (terms_of self.now.tables.terms) self.now.row ≡ Some result.now }
    {
        self.walk.term()
    }

    /// At how many locations the term stands, as its row says.
    pub fn count(&self) -> u64
        ensures { result ≡ slice_index (counts_of self.now.tables.terms) self.now.row }
    {
        self.walk.count
    }

    /// Where stream and summary of the term stand on the disk.
    pub fn stream_place(&self) -> (Extent, Extent)
        ensures stream { result.0 ≡ stream_extent self.now.tables self.now.row }
        ensures summary { result.1 ≡ summary_extent self.now.tables self.now.row }
        // They end within the segment, the summary behind the stream.
        ensures beside { result.1.place ≡ result.0.place + result.0.bytes }
        ensures within { result.1.place + result.1.bytes ≤ self.now.tables.place
            + total_of self.now.tables.documents self.now.tables.terms }
    {
        let summary = self.parts.end - self.walk.left - self.walk.summary;
        (
            Extent {
                place: summary - self.walk.stream,
                bytes: self.walk.stream,
            },
            Extent {
                place: summary,
                bytes: self.walk.summary,
            },
        )
    }
}
