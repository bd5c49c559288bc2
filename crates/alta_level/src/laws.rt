// Laws of segments.
ghost use Rattle.std.specs.Prelude.{◌≡◌, ℕ, ◌⊎◌, ◌<◌, ◌^◌, List, length};
ghost use Rattle.alta_format.specs.Format.{AreBytes};
ghost use Rattle.alta_level.specs.Damage.{IsSegmentFault};
ghost use Rattle.alta_level.specs.Segments.{IsSegment};
ghost use Rattle.alta_content.specs.declared.content.Content.{Content};

use alta_table::{tables_in_front, tables_read_back};

/// Bytes are the segment of one content, or they have one first damage, and none have both.
pub fn segments_read_back()
    ensures once { (bytes : List ℕ) → (c d : Content) → AreBytes bytes → length bytes < 2 ^ 64 → IsSegment bytes c
        → IsSegment bytes d → c ≡ d }
    ensures either { (bytes : List ℕ) → (place : ℕ) → AreBytes bytes → length bytes < 2 ^ 64
        → ((c : Content) × IsSegment bytes c) ⊎ ((p : ℕ) × IsSegmentFault bytes place p) }
    ensures apart { (bytes : List ℕ) → (place p : ℕ) → (c : Content) → AreBytes bytes → length bytes < 2 ^ 64
        → IsSegment bytes c → IsSegmentFault bytes place p → ⊥ }
    ensures first { (bytes : List ℕ) → (place p q : ℕ) → AreBytes bytes → length bytes < 2 ^ 64
        → IsSegmentFault bytes place p → IsSegmentFault bytes place q → p ≡ q }
{
    tables_read_back();
    tables_in_front();
}
