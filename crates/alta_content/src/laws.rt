// Laws of joins.
ghost use Rattle.alta_content.specs.Laws.{JoinsArePart, JoinsFold, JoinsKeepCells, JoinsKeepStates, JoinsMayJoin};

/// A join keeps the rules of a content where a row is left, and is empty where none is; each row that is kept has the number,
/// the name and the cells that it had; and where contents that stand beside each other are joined first, the join of all is the
/// same.
pub fn joins_keep_contents()
    ensures part { JoinsArePart }
    ensures beside { JoinsMayJoin }
    ensures cells { JoinsKeepCells }
    ensures states { JoinsKeepStates }
    ensures folds { JoinsFold }
{}
