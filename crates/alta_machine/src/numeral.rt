// Words that are numbers.
// A word is a number exactly where it is std's own spelling (`decimal`) of one below 2^32, so no definition of digits stands beside
// std's.
ghost use Rattle.std.specs.Prelude.{◌≡◌, ◌≢◌, ℕ, ◌^◌, ◌<◌, length, slice_index, MatchOption, IsTrue, ◌↔◌};
ghost use Rattle.std.specs.Fmt.{decimal};
ghost use Rattle.alta_machine.specs.Numbers.{number_in};

/// The number from 0 to 4,294,967,295 that the word spells in decimal digits, without a sign and without a leading zero (but `0`
/// itself). None exactly where it spells none.
pub fn number(word: &str) -> Option<u32>
    ensures number { MatchOption result ((n : ℕ) → n < 2 ^ 32 → decimal n ≢ word.now) (λ n. decimal n ≡ word.now) }
    ensures value { result ≡ number_in word.now }
{
    match word.parse::<u32>() {
        Ok(n) if is_plain(word.as_bytes()) => Some(n),
        _ => None,
    }
}

// No plus stands in front, and no zero but one that stands alone.
fn is_plain(word: &[u8]) -> bool
    ensures { IsTrue result ↔ (slice_index word.now 0 ≢ 43) × (slice_index word.now 0 ≡ 48 → length word.now ≡ 1) }
{
    match word {
        [b'0', _, ..] | [b'+', ..] => false,
        _ => true,
    }
}
