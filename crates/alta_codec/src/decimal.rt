// Numbers in decimal digits.
// Nine digits are the most that `read_count` takes: its callers ask for four and seven, and so the sum fits without a lemma on
// powers.
ghost use Rattle.std.specs.Prelude.{◌≡◌, ◌≤◌, true, length, IfSome};
ghost use Rattle.std.specs.Char.{is_ascii_digit};
ghost use Rattle.std.specs.List.{list_all};
ghost use Rattle.alta_codec.specs.Decimal.{count_in, value_of};

/// The number from 1 to `limit` that the text spells in `most` decimal digits at most, without sign or leading zero.
#[tactic(auto, unfolding(crate::specs::Decimal::count_in))]
pub fn read_count(text: &[u8], most: usize, limit: u64) -> Option<u64>
    requires { most ≤ 9 }
    ensures count { result ≡ count_in most limit text.now }
    ensures within { IfSome result (λ n. n ≤ limit) }
{
    if text.is_empty() || text.len() > most || !are_digits(text) || text[0] == b'0' {
        return None;
    }
    let n = value(text);
    if n <= limit { Some(n) } else { None }
}

fn are_digits(text: &[u8]) -> bool
    ensures { result ≡ list_all is_ascii_digit text.now }
{
    for b in text {
        if !b.is_ascii_digit() {
            return false;
        }
    }
    true
}

// The number that digits spell.
fn value(digits: &[u8]) -> u64
    requires short { length digits.now ≤ 9 }
    requires digits { list_all is_ascii_digit digits.now ≡ true }
    ensures { result ≡ value_of digits.now }
{
    let mut n = 0;
    for b in digits {
        n = n * 10 + (*b - b'0') as u64;
    }
    n
}
