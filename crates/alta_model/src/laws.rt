// What the definitions promise by themselves.
ghost use Rattle.std.specs.Prelude.{◌≡◌, ◌↔◌, List, ℕ, true};
ghost use Rattle.alta_machine.specs.Command.{Command, ReadsLine};
ghost use Rattle.alta_machine.specs.Deciding.{is_match};
ghost use Rattle.alta_machine.specs.LineFaults.{IsRefused, IsText};
ghost use Rattle.alta_machine.specs.Lines.{Reading, asks, refuses, reading_of};
ghost use Rattle.alta_machine.specs.declared.line.LineFault.{LineFault};
ghost use Rattle.alta_machine.specs.Matches.{Matches};
ghost use Rattle.alta_machine.specs.Shape.{Shape};

/// A line asks for a command exactly where it is a text that spells the command, and it is refused exactly for the
/// first of the four causes that applies.
pub fn a_line_is_read_one_way()
    ensures asked { (line : List ℕ) (command : Command) → (reading_of line ≡ asks command)
        ↔ (IsText line × ReadsLine line command) }
    ensures refused { (line : List ℕ) (fault : LineFault) → (reading_of line ≡ refuses fault) ↔ IsRefused line fault }
{}

/// Cells match a query exactly where trying every place for each of its tests finds that they do.
pub fn a_match_is_decided()
    ensures { (cells : List (List (List ℕ))) (query : Shape) → (is_match cells query ≡ true) ↔ Matches cells query }
{}
