//! What the lines of a dump promise by themselves.
ghost use Rattle.std.specs.Prelude.{◌≡◌, ◌↔◌, List, ℕ, Some};
ghost use Rattle.alta_codec.specs.Name.{IsName};
ghost use Rattle.alta_dump.specs.Laws.{AnswersAgain};
ghost use Rattle.alta_machine.specs.DumpLines.{IsLineOf, body_text, line_of, title_text};
ghost use Rattle.alta_dump.specs.Names.{HasItsName};
ghost use Rattle.alta_machine.specs.Cells.{cells_of};
ghost use Rattle.alta_machine.specs.declared.document.Document.{Document};
ghost use Rattle.alta_machine.specs.Command.{adds};
ghost use Rattle.alta_machine.specs.Lines.{asks, reading_of};

/// A document has a line exactly where that line adds it again: the document is plain, and as many cells with the same folded
/// words, title's end and document's end come of its line, which is short enough and has no tab in its title.
pub fn a_line_is_decided()
    ensures { (d : Document) (line : List ℕ) → (line_of d ≡ Some line) ↔ IsLineOf d line }
{}

/// The line of a document with a proper name is read as the command that adds its name, title and body.
pub fn a_line_reads_as_an_add()
    ensures { (d : Document) (line : List ℕ) → IsName d.name → line_of d ≡ Some line
        → reading_of line ≡ asks (adds d.name (title_text d.cells) (body_text d.cells)) }
{}

/// A document that was added has its own name as the only name among its terms, in its first cell.
pub fn an_added_document_has_its_name()
    ensures { (number : ℕ) (name title body : List ℕ)
        → HasItsName (record { number = number; name = name; cells = cells_of name title body }) }
{}

/// The add lines of a dump in which no document is skipped make a state that answers each query that asks for no word as it
/// was written as the dumped state does: with the documents of the same names, in the same order.
pub fn the_lines_of_a_dump_answer_again()
    ensures { AnswersAgain }
{}
