// The segment of a content.
// `build` uses its content up: the rows are dropped once they are spelled, the memory of the lists is given back as they are spelled,
// and head and tables come in front of the streams where these lie. So a flush or a merge holds about as much as the segment has.
ghost use Rattle.std.specs.Prelude.{◌≡◌, ℕ, List, ◌++◌, ◌∷◌, [], ◌<◌, ◌≤◌, length, slice_index_or, OnOk, IfOk, flat_map};
ghost use Rattle.std.specs.List.{All};
ghost use Rattle.alta_codec.specs.Rising.{IsRising};
ghost use Rattle.alta_table.specs.Documents.{documents_bytes};
ghost use Rattle.alta_table.specs.Terms.{entry_bytes, terms_bytes};
ghost use Rattle.alta_content.specs.Lists.{IsContent, terms_of};
ghost use Rattle.alta_content.specs.Packed.{AreGaps};
ghost use Rattle.alta_content.specs.Rows.{AreDocuments};
ghost use Rattle.alta_content.specs.declared.content.Content.{Content};
ghost use Rattle.alta_level.specs.Segments.{list_bytes, row_of, rows_of, segment_bytes};

use crate::writing::put_list;
use alta_codec::Len;
use alta_content::{Content, DocRows, PackedList, TermLists};
use alta_postings::Row;
use alta_table::{Head, put_documents, put_head, put_term};
use std::alloc::{AllocError, Global};

// Appends the entry of a term behind the one before it, and its stream and summary. `rows` is room to work in.
fn put_one(
    alloc: Global,
    terms: &mut Vec<u8>,
    streams: &mut Vec<u8>,
    rows: &mut Vec<Row>,
    before: &[u8],
    term: &[u8],
    list: PackedList<'_>,
) -> Result<(), AllocError>
    requires { (locations : List ℕ) × IsRising locations × AreGaps list.gaps.now list.count locations }
    ensures terms { (locations : List ℕ) → IsRising locations → AreGaps list.entry.gaps.now list.entry.count locations
        → OnOk result (terms.new.items ≡ terms.old.items ++ entry_bytes before.now
        (row_of (record { term = term.now; locations = locations }))) }
    ensures streams { (locations : List ℕ) → IsRising locations → AreGaps list.entry.gaps.now list.entry.count locations
        → OnOk result (streams.new.items ≡ streams.old.items ++ list_bytes
        (record { term = term.now; locations = locations })) }
{
    let count = list.count;
    let size = put_list(alloc, streams, rows, list)?;
    put_term(terms, before, term, count, size.stream, size.summary)?;
    Ok(())
}

// Appends the entries of terms to one buffer, and their streams and summaries to another. Each list is skipped once it is
// spelled, and no list takes memory of its own.
fn put_lists(
    alloc: Global,
    terms: &mut Vec<u8>,
    streams: &mut Vec<u8>,
    lists: TermLists,
) -> Result<(), AllocError>
    requires { All (λ l. IsRising l.locations) lists }
    ensures terms { OnOk result (terms.new.items ≡ terms.old.items ++ terms_bytes (rows_of lists)) }
    ensures streams { OnOk result (streams.new.items ≡ streams.old.items ++ flat_map list_bytes lists) }
{
    let mut left = lists;
    let mut rows = Vec::new(alloc);
    let mut before = Vec::new(alloc);
    while let Some(term) = left.first() {
        let list = left.first_packed();
        put_one(alloc, terms, streams, &mut rows, &before, term, list)?;
        before.clear();
        before.extend_from_slice(term)?;
        left.skip();
    }
    Ok(())
}

// A segment of so many rows and lists, from its parts. Head and tables come in front of the streams where these lie, so that none
// of it stands in memory twice.
fn assemble(
    rows: usize,
    lists: usize,
    documents: &[u8],
    terms: &[u8],
    streams: Vec<u8>,
) -> Result<Vec<u8>, AllocError>
    ensures { (content : Content) → rows ≡ length content.documents → lists ≡ length content.lists
        → documents.now ≡ documents_bytes content.documents → terms.now ≡ terms_bytes (rows_of content.lists)
        → streams.items ≡ flat_map list_bytes content.lists
        → IfOk result (λ bytes. bytes.items ≡ segment_bytes content) }
{
    let head = Head {
        documents: rows as u64,
        terms: lists as u64,
        document_bytes: documents.len() as u64,
        term_bytes: terms.len() as u64,
    };
    let size = streams.len();
    let mut bytes = streams;
    put_head(&mut bytes, &head)?;
    bytes.extend_from_slice(documents)?;
    bytes.extend_from_slice(terms)?;
    bytes.rotate_left(size);
    Ok(bytes)
}

// The document part of rows, which are used up.
fn spell_documents(alloc: Global, documents: DocRows) -> Result<Vec<u8>, AllocError>
    requires { AreDocuments documents }
    ensures { IfOk result (λ bytes. bytes.items ≡ documents_bytes documents) }
{
    let mut bytes = Vec::new(alloc);
    put_documents(&mut bytes, documents.as_slice())?;
    Ok(bytes)
}

/// The segment of a content: its head, its documents, its terms, then the stream and the summary of each term. It makes
/// one pass over the lists, whose gaps are copied. The content is used up: its rows are dropped before its lists are spelled, and the
/// memory of these is given back as they are.
pub fn build(alloc: Global, content: Content) -> Result<Vec<u8>, AllocError>
    requires { IsContent content }
    ensures { IfOk result (λ bytes. bytes.items ≡ segment_bytes content) }
{
    let rows = content.documents.len();
    let lists = content.lists.len();
    let documents = spell_documents(alloc, content.documents)?;
    let mut terms = Vec::with_capacity(alloc, content.lists.row_room())?;
    let mut streams = Vec::with_capacity(alloc, content.lists.room())?;
    put_lists(alloc, &mut terms, &mut streams, content.lists)?;
    assemble(rows, lists, &documents, &terms, streams)
}
