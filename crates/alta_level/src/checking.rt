// One list of a level, tested and read.
// A search loads the lists of its terms and no others, so a list is tested alone. Where a level's documents stand side by side in
// one run, the range of the list says that each location is in a document. Where there are several runs, only a block that leaves
// its run is decoded and looked up beside them. Reading a list keeps its locations while it tests them, so want of memory may be
// answered before a damage is seen.
ghost use Rattle.std.specs.Prelude.{◌≡◌, ℕ, ◌+◌, ◌<◌, ◌^◌, List, length, Err, IfOk};
ghost use Rattle.alta_postings.specs.Deltas.{decoded_list};
ghost use Rattle.alta_table.specs.Answers.{IfDamaged, IsDamaged, IsFound};
ghost use Rattle.alta_content.specs.Rows.{AreDocuments};
ghost use Rattle.alta_content.specs.declared.document.DocRow.{DocRow};
ghost use Rattle.alta_words.specs.Fault.{IsPostingFault};
ghost use Rattle.alta_words.specs.Word.{HasBounds, IsPosting};
ghost use Rattle.alta_level.specs.Coded.{IsCoded};
ghost use Rattle.alta_level.specs.Stored.{AreApart, IsListFault, IsListOf, stored_of};
ghost use Rattle.alta_level.specs.Whole.{ReadsList};

use crate::comparing::compare;
use crate::decoding::{DecodeFault, decode};
use crate::ranges::{fits, is_end_term};
use crate::stored::StoredList;
use crate::walking::test_list;
use alta_codec::Loc;
use alta_content::LevelRows;
use alta_table::LevelFault;
use alta_words::{Bounds, PostingFault};

// The place on the disk of a fault of a stream or a summary.
fn place_of(list: &StoredList<'_>, fault: PostingFault) -> u64
    requires stream { list.now.stream_place + length list.now.stream.now < 2 ^ 64 }
    requires summary { list.now.summary_place + length list.now.summary.now < 2 ^ 64 }
    requires fault { IsPostingFault list.now.stream.now list.now.summary.now fault }
    ensures { (documents : List DocRow) → IsListFault documents (stored_of list.now) result }
{
    match fault {
        PostingFault::Stream(at) => list.stream_place + at as u64,
        PostingFault::Summary(at) => list.summary_place + at as u64,
        PostingFault::Differ(row) => list.summary_place + 24 * row as u64,
    }
}

// Leaves in `locations` those of a list on the disk that is coded as it should be, or answers the place of the first
// fault.
fn read_coded(
    locations: &mut Vec<Loc>,
    places: &mut Vec<u64>,
    list: &StoredList<'_>,
) -> Result<(), LevelFault>
    requires stream { list.now.stream_place + length list.now.stream.now < 2 ^ 64 }
    requires summary { list.now.summary_place + length list.now.summary.now < 2 ^ 64 }
    ensures coded { IfOk result (λ x. IsCoded list.now.stream.now list.now.summary.now
        (decoded_list list.now.stream.now)) }
    ensures posting { IfOk result (λ x. (b : ℕ) × IsPosting list.now.stream.now list.now.summary.now b) }
    ensures read { IfOk result (λ x. locations.new.items ≡ decoded_list list.now.stream.now) }
    ensures fault { IfDamaged result (λ p. (documents : List DocRow) → IsListFault documents (stored_of list.now) p) }
{
    match decode(locations, places, list.stream) {
        Ok(()) => match compare(list.summary, locations, places.as_slice()) {
            Ok(()) => Ok(()),
            Err(fault) => Err(LevelFault::Damaged(place_of(list, fault))),
        },
        Err(DecodeFault::Memory) => Err(LevelFault::Memory),
        Err(DecodeFault::Stream(at)) => {
            let fault = PostingFault::Stream(at);
            Err(LevelFault::Damaged(place_of(list, fault)))
        }
    }
}

// Leaves in `locations` those of a list, or answers the first fault, as [`read_list`] does.
fn read_whole(
    locations: &mut Vec<Loc>,
    places: &mut Vec<u64>,
    list: &StoredList<'_>,
    documents: &LevelRows,
) -> Result<(), LevelFault>
    requires stream { list.now.stream_place + length list.now.stream.now < 2 ^ 64 }
    requires summary { list.now.summary_place + length list.now.summary.now < 2 ^ 64 }
    requires documents { AreDocuments documents.now }
    ensures { ReadsList documents.now (stored_of list.now) locations.new.items result }
{
    read_coded(locations, places, list)?;
    if fits(documents, list.term, list.count, locations) {
        Ok(())
    } else {
        Err(misfit(list))
    }
}

// The fault of a list that keeps not what its row and the documents say.
fn misfit(list: &StoredList<'_>) -> LevelFault
    ensures { result ≡ LevelFault.Damaged list.now.stream_place }
{
    LevelFault::Damaged(list.stream_place)
}

// A list is whole, and has these bounds, or its first fault.
fn tested(list: &StoredList<'_>, documents: &LevelRows) -> Result<Bounds, LevelFault>
    requires stream { list.now.stream_place + length list.now.stream.now < 2 ^ 64 }
    requires summary { list.now.summary_place + length list.now.summary.now < 2 ^ 64 }
    requires documents { AreDocuments documents.now }
    ensures reads { ReadsList documents.now (stored_of list.now) (decoded_list list.now.stream.now) result }
    ensures posting { IfOk result (λ bounds. IsPosting list.now.stream.now list.now.summary.now bounds.rows) }
    ensures bounds { IfOk result (λ bounds. HasBounds (decoded_list list.now.stream.now) bounds.count
        bounds.first bounds.last) }
    ensures lean { result ≡ Err LevelFault.Memory → ⊥ }
{
    let ends = is_end_term(list.term);
    match test_list(list.stream, list.summary, documents, ends) {
        Ok(walked) => {
            if walked.bounds.count != list.count {
                return Err(misfit(list));
            }
            if walked.fits {
                Ok(walked.bounds)
            } else {
                Err(misfit(list))
            }
        }
        Err(fault) => Err(LevelFault::Damaged(place_of(list, fault))),
    }
}

/// Tests a list as [`read_list`] does, with the same faults, and keeps none of its locations: it answers what a
/// [`Posting`](alta_words::Posting) of its bytes is made with. It takes no memory, and never answers `Memory`. Each number of the stream
/// is read once, and in a damaged list at most twice.
pub fn check_list(list: &StoredList<'_>, documents: &LevelRows) -> Result<Bounds, LevelFault>
    requires stream { list.now.stream_place + length list.now.stream.now < 2 ^ 64 }
    requires summary { list.now.summary_place + length list.now.summary.now < 2 ^ 64 }
    requires documents { AreDocuments documents.now }
    ensures whole { IfOk result (λ x. IsListOf documents.now (stored_of list.now) (decoded_list list.now.stream.now)) }
    ensures posting { IfOk result (λ bounds. IsPosting list.now.stream.now list.now.summary.now bounds.rows) }
    ensures bounds { IfOk result (λ bounds. HasBounds (decoded_list list.now.stream.now) bounds.count
        bounds.first bounds.last) }
    ensures only { (locations : List ℕ) → IsListOf documents.now (stored_of list.now) locations
        → IsFound (λ x. decoded_list list.now.stream.now) result locations }
    ensures first { IfDamaged result (IsListFault documents.now (stored_of list.now)) }
    ensures broken { (p : ℕ) → IsListFault documents.now (stored_of list.now) p → IsDamaged result p }
    ensures lean { result ≡ Err LevelFault.Memory → ⊥ }
{
    tested(list, documents)
}

/// Leaves in `locations` those of a list, whose level has these documents, and nothing that it held. `places` is room to work
/// in; lists may share both. Each number of the stream is read once. `Damaged` has the place of the first fault: the
/// stream's own, else the summary's own, else the first row that is not the block of its number or is missing, which is 24
/// times its number behind the summary's first byte. Last comes the stream's first byte, where the stream has another
/// number of locations than its row states, or one in no document's range, or where the term is `D` and the locations are
/// not the ends of the documents. `Memory` comes only where memory is wanting.
pub fn read_list(
    locations: &mut Vec<Loc>,
    places: &mut Vec<u64>,
    list: &StoredList<'_>,
    documents: &LevelRows,
) -> Result<(), LevelFault>
    requires stream { list.now.stream_place + length list.now.stream.now < 2 ^ 64 }
    requires summary { list.now.summary_place + length list.now.summary.now < 2 ^ 64 }
    requires documents { AreDocuments documents.now }
    ensures found { IfOk result (λ x. IsListOf documents.now (stored_of list.now) locations.new.items) }
    ensures only { (whole : List ℕ) → IsListOf documents.now (stored_of list.now) whole
        → IsFound (λ x. locations.new.items) result whole }
    ensures first { IfDamaged result (IsListFault documents.now (stored_of list.now)) }
    ensures broken { (p : ℕ) → IsListFault documents.now (stored_of list.now) p → IsDamaged result p }
{
    read_whole(locations, places, list, documents)
}
