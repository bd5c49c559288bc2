// What holds of every document. Each function is a law, and has nothing to run.
ghost use Rattle.alta_query.specs.Values.{FindsNumbers, SeesNoRanges};

/// A value matches the cells of a document exactly where a word of its title or its body, of at most 128 bytes, is a number from the
/// lowest to the highest.
pub fn a_value_finds_numbers()
    ensures { FindsNumbers }
{}

/// A query without values matches the cells of a document exactly where it matches them without the terms of ranges: no word, no
/// prefix and no name meets one.
pub fn a_query_without_values_sees_no_ranges()
    ensures { SeesNoRanges }
{}
