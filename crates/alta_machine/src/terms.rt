// The terms that a number and a range share.
ghost use Rattle.std.specs.Prelude.{◌≡◌, ◌-◌, ◌/◌, ◌^◌, ◌<◌, ◌≤◌};
ghost use Rattle.alta_machine.specs.Terms.{term_bytes};

use crate::range::Range;

/// The bytes of a term that a number and a range share.
pub type RangeTerm = [u8; 7];

/// The term of the range of this level in which a number stands: `X`, the byte `ff`, the level, and the number divided by 2 ^
/// `level`, in four bytes, the highest first. The level is at most 32. No word of text begins with the byte `ff`, which is in no
/// UTF-8 (RFC 3629), so the term is no word's.
pub fn term(value: u32, level: u8) -> RangeTerm
    requires { level ≤ 32 }
    ensures { result ≡ term_bytes level (value / 2 ^ level) }
{
    range_term(Range {
        level,
        prefix: (u64::from(value) >> level) as u32,
    })
}

/// The term of a range, which each number in it has at the range's level.
pub fn range_term(range: Range) -> RangeTerm
    requires level { range.level ≤ 32 }
    requires prefix { range.prefix < 2 ^ (32 - range.level) }
    ensures { result ≡ term_bytes range.level range.prefix }
{
    let [first, second, third, fourth] = range.prefix.to_be_bytes();
    [b'X', 0xFF, range.level, first, second, third, fourth]
}
