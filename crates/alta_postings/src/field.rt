// The fields of a table, and the rules that they keep.
ghost use Rattle.std.specs.Prelude.{◌≡◌, ◌↔◌, ℕ, ◌+◌, ◌*◌, ◌<◌, ◌≤◌, length, IfSome, IfNone, IsTrue};
ghost use Rattle.alta_postings.specs.Table.{field_at, fields_of, Keeps};

/// A field of eight bytes.
#[tactic(auto, unfolding(crate::specs::Table::field_at))]
pub fn field(bytes: &[u8], k: usize) -> u64
    requires { 8 * k + 8 ≤ length bytes.now }
    ensures { result ≡ field_at bytes.now k }
{
    let [a, b, c, d, e, f, g, h, ..] = &bytes[8 * k..] else {
        return 0;
    };
    u64::from_be_bytes([*a, *b, *c, *d, *e, *f, *g, *h])
}

/// How many rows a table of so many bytes has.
pub fn count_of(len: usize) -> Option<usize>
    ensures some { IfSome result (λ b. (len ≡ 8 * fields_of b) × (b ≡ 1 → ⊥)) }
    ensures none { IfNone result ((b : ℕ) → len ≡ 8 * fields_of b → b ≡ 1) }
{
    if len % 8 != 0 {
        return None;
    }
    let words = len / 8;
    let whole = words / 193;
    let rest = words % 193;
    if rest == 0 {
        return Some(64 * whole);
    }
    if rest % 3 != 1 || rest == 1 {
        return None;
    }
    let count = 64 * whole + rest / 3;
    if count == 1 {
        return None;
    }
    Some(count)
}

/// Whether a field keeps its rule.
pub fn keeps(bytes: &[u8], count: usize, k: usize) -> bool
    requires sized { length bytes.now ≡ 8 * fields_of count }
    requires within { k < fields_of count }
    ensures { IsTrue result ↔ Keeps bytes.now count k }
{
    if k >= 3 * count {
        let last = (64 * (k - 3 * count) + 63).min(count - 1);
        return field(bytes, k) == field(bytes, 3 * last + 1);
    }
    let here = field(bytes, k);
    if k % 3 == 0 {
        return k == 0 || field(bytes, k - 2) < here;
    }
    if k % 3 == 1 {
        return field(bytes, k - 1) <= here;
    }
    if k == 2 {
        return here == 0;
    }
    field(bytes, k - 3) < here
}
