// Writers of head and tables.
ghost use Rattle.std.specs.Prelude.{◌≡◌, ℕ, ◌++◌, List, nat_eq, OnOk, OnErr};
ghost use Rattle.std.specs.List.{common_prefix_len};
ghost use Rattle.std.specs.Int.{w64, to_be_bytes};
ghost use Rattle.alta_table.specs.Documents.{documents_bytes, row_bytes};
ghost use Rattle.alta_content.specs.Rows.{AreDocuments, MayFollow};
ghost use Rattle.alta_table.specs.Terms.{entry_bytes, shared_len};
ghost use Rattle.alta_table.specs.Tables.{head_bytes};
ghost use Rattle.alta_table.specs.Writing.{PutsBytes};

use crate::sizes::Head;
use alta_codec::{DocNumber, Loc, put_number};
use alta_content::DocRow;
use std::alloc::AllocError;

/// Appends the bytes of a head: its four numbers, of eight bytes each from the highest. For want of memory `out` stays
/// as it was.
pub fn put_head(out: &mut Vec<u8>, head: &Head) -> Result<(), AllocError>
    ensures ok { OnOk result (out.new.items ≡ out.old.items ++ head_bytes head.now) }
    ensures err { OnErr result (out.new.items ≡ out.old.items) }
{
    let len = out.len();
    let result = put_sizes(out, head);
    if result.is_err() {
        out.truncate(len);
    }
    result
}

fn put_sizes(out: &mut Vec<u8>, head: &Head) -> Result<(), AllocError>
    ensures { PutsBytes (head_bytes head.now) out.old.items out.new.items result }
{
    out.extend_from_slice(&head.documents.to_be_bytes())?;
    out.extend_from_slice(&head.terms.to_be_bytes())?;
    out.extend_from_slice(&head.document_bytes.to_be_bytes())?;
    out.extend_from_slice(&head.term_bytes.to_be_bytes())
}

fn put_row(out: &mut Vec<u8>, number: DocNumber, end: Loc, row: &DocRow) -> Result<(), AllocError>
    requires { MayFollow (record { number = number; end = end }) row.now }
    ensures { PutsBytes (row_bytes (record { number = number; end = end }) row.now) out.old.items out.new.items result }
{
    let name = row.name.as_bytes();
    put_number(out, row.number - number)?;
    put_number(out, row.first - end)?;
    put_number(out, row.cells)?;
    out.push(name.len() as u8)?;
    out.extend_from_slice(name)
}

fn put_rows(out: &mut Vec<u8>, rows: &[DocRow]) -> Result<(), AllocError>
    requires { AreDocuments rows.now }
    ensures { PutsBytes (documents_bytes rows.now) out.old.items out.new.items result }
{
    let mut number: DocNumber = 0;
    let mut end: Loc = 0;
    for row in rows {
        put_row(out, number, end, row)?;
        number = row.number;
        end = row.first + row.cells - 1;
    }
    Ok(())
}

/// Appends the bytes of a document part. For want of memory `out` stays as it was.
pub fn put_documents(out: &mut Vec<u8>, rows: &[DocRow]) -> Result<(), AllocError>
    requires { AreDocuments rows.now }
    ensures ok { OnOk result (out.new.items ≡ out.old.items ++ documents_bytes rows.now) }
    ensures err { OnErr result (out.new.items ≡ out.old.items) }
{
    let len = out.len();
    let result = put_rows(out, rows);
    if result.is_err() {
        out.truncate(len);
    }
    result
}

// How many bytes the two have in common at their front.
fn shared(before: &[u8], term: &[u8]) -> usize
    ensures { result ≡ shared_len before.now term.now }
{
    let mut len = 0;
    'shared: while len < before.len() && len < term.len() && before[len] == term[len] {
        len += 1;
    }
    len
}

fn put_entry(
    out: &mut Vec<u8>,
    before: &[u8],
    term: &[u8],
    count: u64,
    stream: u64,
    summary: u64,
) -> Result<(), AllocError>
    ensures { PutsBytes (entry_bytes before.now
        (record { term = term.now; count = count; stream = stream; summary = summary })) out.old.items
        out.new.items result }
{
    let (front, rest) = term.split_at(shared(before, term));
    put_number(out, front.len() as u64)?;
    put_number(out, rest.len() as u64)?;
    out.extend_from_slice(rest)?;
    put_number(out, count)?;
    put_number(out, stream)?;
    put_number(out, summary)
}

/// Appends the entry of a term behind the entry of the term `before`, which is empty for the first: how long their
/// common front is, the length of the rest and the rest, at how many locations the term stands, and the lengths of its
/// stream and of its summary. For want of memory `out` stays as it was.
pub fn put_term(
    out: &mut Vec<u8>,
    before: &[u8],
    term: &[u8],
    count: u64,
    stream: u64,
    summary: u64,
) -> Result<(), AllocError>
    ensures ok { OnOk result (out.new.items
        ≡ out.old.items ++ entry_bytes before.now
        (record { term = term.now; count = count; stream = stream; summary = summary })) }
    ensures err { OnErr result (out.new.items ≡ out.old.items) }
{
    let len = out.len();
    let result = put_entry(out, before, term, count, stream, summary);
    if result.is_err() {
        out.truncate(len);
    }
    result
}
