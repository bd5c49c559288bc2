// What the number of a new cursor is. The function is a law, and has nothing to run.
ghost use Rattle.std.specs.Prelude.{List};
ghost use Rattle.alta_machine.specs.OpenAnswers.{OpenAnswers, IsLeastFree, least_free};

/// The number that is given to a new cursor is the least from 1 on that no open cursor has.
pub fn free_numbers_are_least()
    ensures { (cursors : List OpenAnswers) → IsLeastFree (least_free cursors) cursors }
{}
