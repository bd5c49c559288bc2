// What follows from the definitions alone. The functions are empty: their contracts are the laws.
ghost use Rattle.std.specs.Prelude.{◌≡◌, ◌⊎◌, ℕ, ◌≤◌, List, length};
ghost use Rattle.alta_layout.specs.declared.places.TheConstants.{HEAD_BYTES};
ghost use Rattle.alta_layout.specs.Places.{half_start};
ghost use Rattle.alta_layout.specs.declared.slot.Slot.{Slot};
ghost use Rattle.alta_journal.specs.Journal.{EndsAt, HasBrokenHalf};
ghost use Rattle.alta_journal.specs.declared.entry.Entry.{Entry};

/// A half is read in one way under a root of one version: an image has at most one list of entries and one tail, or one place of damage.
pub fn a_half_is_read_in_one_way()
    ensures reading { (version start p q : ℕ) → (xs ys : List Entry) → (image : List ℕ)
        → EndsAt version start p xs image → EndsAt version start q ys image → (p ≡ q) × (xs ≡ ys) }
    ensures fault { (version start p q : ℕ) → (image : List ℕ) → HasBrokenHalf version start p image
        → HasBrokenHalf version start q image → p ≡ q }
    ensures not_both { (version start p q : ℕ) → (xs : List Entry) → (image : List ℕ) → EndsAt version start p xs image
        → HasBrokenHalf version start q image → ⊥ }
{}

/// Each half of an image is read to a closed gate, or has a first record that breaks a rule.
pub fn a_half_is_read_or_broken()
    ensures { (version : ℕ) → (slot : Slot) → (image : List ℕ) → HEAD_BYTES ≤ length image
        → ((place : ℕ) × (entries : List Entry) × EndsAt version (half_start slot) place entries image)
        ⊎ ((place : ℕ) × HasBrokenHalf version (half_start slot) place image) }
{}
