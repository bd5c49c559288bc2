// What follows from the definitions alone. The functions are empty: their contracts are the laws.
ghost use Rattle.std.specs.Prelude.{◌≡◌, ℕ, ◌+◌, ◌<◌, ◌≤◌, ◌^◌, ◌↔◌, ◌++◌, List, length, take, Option, Some, None, Result, Ok, Err};
ghost use Rattle.alta_layout.specs.declared.places.TheConstants.{SLOTS_BYTES, SLOT_BYTES};
ghost use Rattle.alta_layout.specs.Places.{other, slot_start};
ghost use Rattle.alta_layout.specs.declared.slot.Slot.{Slot};
ghost use Rattle.alta_codec.specs.declared.extent.Extent.{Extent};
ghost use Rattle.alta_disk.specs.Parts.{Clear, Touches};
ghost use Rattle.alta_format.specs.Format.{AreBytes, FirstBroken};
ghost use Rattle.alta_root.specs.Gaps.{IsFirstGap, IsGap, IsLongestGap, first_gap, greatest_gap};
ghost use Rattle.alta_root.specs.Root.{IsSound, root_format, fields_of, body_of};
ghost use Rattle.alta_root.specs.Slots.{root_in, Counts, Shows};
ghost use Rattle.alta_root.specs.declared.fault.RootFault.{RootFault};
ghost use Rattle.alta_root.specs.declared.places.TheConstants.{BODY_BYTES, FIELDS_BYTES};
ghost use Rattle.alta_root.specs.declared.root.Root.{Root};
ghost use Rattle.alta_root.specs.declared.root.Roots.{Roots};

/// An image says one thing at opening: that one root counts, in one slot, or that there is none, or where it is damaged
/// first.
pub fn an_image_says_one_thing()
    ensures some { (image : List ℕ) → (answer : Result Roots RootFault) × Shows image answer }
    ensures one { (image : List ℕ) → (a b : Result Roots RootFault) → Shows image a → Shows image b → a ≡ b }
    ensures slot { (image : List ℕ) → (s t : Slot) → (a b : Root) → Counts s a image → Counts t b image → s ≡ t }
    ensures root { (image : List ℕ) → (s t : Slot) → (a b : Root) → Counts s a image → Counts t b image → a ≡ b }
{}

/// A root that counts keeps the rules, and counts on where nothing of both slots changes and the disk is no shorter.
pub fn a_root_counts_on()
    ensures sound { (slot : Slot) → (root : Root) → (image : List ℕ) → Counts slot root image
        → IsSound (length image) root }
    ensures stays { (slot : Slot) → (root : Root) → (ranges : List (ℕ × ℕ)) → (old new : List ℕ) → Counts slot root old
        → Touches ranges old new
        → ((a m : ℕ) → a + m ≤ SLOTS_BYTES → Clear a m ranges) → Counts slot root new }
{}

/// Reading is the inverse of spelling: what is read keeps the rules and is spelled so, and what keeps the rules is read
/// from its spelling, whatever follows. Where nothing is read, the place is that of the first field that breaks its rule.
pub fn a_root_reads_back()
    ensures read { (size start : ℕ) → (root : Root) → (bytes rest : List ℕ) → size < 2 ^ 64 → IsSound size root
        → root.sequence < 256 → bytes ≡ fields_of root ++ rest → root_in size start bytes ≡ Ok root }
    ensures spelled { (size start : ℕ) → (root : Root) → (bytes : List ℕ) → AreBytes bytes
        → root_in size start bytes ≡ Ok root → (rest : List ℕ) × (bytes ≡ fields_of root ++ rest) }
    ensures first { (size start place : ℕ) → (bytes : List ℕ) → AreBytes bytes → root_in size start bytes ≡ Err place
        → FirstBroken (root_format size) bytes start place }
    ensures broken { (size start place : ℕ) → (bytes : List ℕ) → AreBytes bytes
        → FirstBroken (root_format size) bytes start place → root_in size start bytes ≡ Err place }
    ensures body { (size start : ℕ) → (root : Root) → size < 2 ^ 64 → IsSound size root → root.sequence < 256
        → root_in size start (take FIELDS_BYTES (body_of root)) ≡ Ok root }
    ensures long { (size : ℕ) → (root : Root) → IsSound size root → length (body_of root) ≡ BODY_BYTES }
{}

/// The first gap and the greatest gap as functions are those of the relations.
pub fn gaps_are_the_first_and_the_longest()
    ensures first { (extents : List Extent) → (bytes limit at : ℕ)
        → ((first_gap extents bytes limit ≡ Some at) ↔ IsFirstGap extents bytes limit at) }
    ensures none { (extents : List Extent) → (bytes limit : ℕ)
        → ((first_gap extents bytes limit ≡ None) ↔ ((at : ℕ) → IsGap extents bytes limit at → ⊥)) }
    ensures greatest { (extents : List Extent) → (limit : ℕ) → IsLongestGap extents limit (greatest_gap extents limit) }
    ensures one { (extents : List Extent) → (limit bytes : ℕ) → IsLongestGap extents limit bytes
        → bytes ≡ greatest_gap extents limit }
{}

/// Both slots stand at the front of a disk, and each is the other's other.
pub fn slots_are_two()
    ensures front { (slot : Slot) → slot_start slot + SLOT_BYTES ≤ SLOTS_BYTES }
    ensures twice { (slot : Slot) → other (other slot) ≡ slot }
{}
