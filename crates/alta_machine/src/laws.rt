// What follows from the definitions, for the layers above.
ghost use Rattle.alta_machine.specs.RangeLaws.{AreApart, AreRead, CoversOnce, IsMade, IsOneCover};

/// Of the numbers from one to another, each has exactly one range of their cover, and shares exactly that range's term at the
/// range's level; no other number shares the term of a range of the cover. A term of a number is a range's only where the
/// number stands in the range.
pub fn a_value_is_covered_once()
    ensures { CoversOnce }
{}

/// The cover of the numbers from one to another is one list, and has at most 62 ranges.
pub fn a_cover_is_one()
    ensures { IsOneCover }
{}

/// The cover as a list is the cover.
pub fn a_cover_is_made()
    ensures { IsMade }
{}

/// A word is read as a number exactly where it is that number's spelling.
pub fn a_number_is_read()
    ensures { AreRead }
{}

/// Terms of ranges of different level or prefix differ, those of a lower level come first, none is text, and none is a byte with
/// a text behind it, as the term of a word is.
pub fn terms_are_apart()
    ensures { AreApart }
{}
