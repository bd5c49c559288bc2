// What follows from the definitions of what an image means, and of the work on levels, alone. The functions are empty: their
// contracts are the laws.
ghost use Rattle.std.specs.Prelude.{◌≡◌, ◌⊎◌, ◌≤◌, ◌<◌, ◌^◌, ◌==◌, ◌&&◌, nat_le, ℕ, true, false, List, [], ◌∷◌, ◌++◌, length, map, drop, Option, Ok, Err, Some, None};
ghost use Rattle.std.specs.List.{All};
ghost use Rattle.alta_layout.specs.declared.places.TheConstants.{HALF_BYTES, HEAD_BYTES};
ghost use Rattle.alta_layout.specs.Places.{half_start, other};
ghost use Rattle.alta_layout.specs.declared.slot.Slot.{Slot};
ghost use Rattle.alta_layout.specs.declared.slot.Slot.TheVariants.{A};
ghost use Rattle.alta_codec.specs.declared.extent.Extent.{Extent};
ghost use Rattle.alta_disk.specs.Parts.{Touches};
ghost use Rattle.alta_codec.specs.Bytes.{AreBytes};
ghost use Rattle.alta_journal.specs.Journal.{Appended, Appends};
ghost use Rattle.alta_journal.specs.Placed.{placed};
ghost use Rattle.alta_journal.specs.declared.entry.Entry.{Entry};
ghost use Rattle.alta_level.specs.Segments.{IsSegment};
ghost use Rattle.alta_content.specs.declared.content.Content.{Content};
ghost use Rattle.alta_memlevel.specs.Added.{IsSpace};
ghost use Rattle.alta_meaning.specs.Broken.{IsBrokenAt};
ghost use Rattle.alta_root.specs.Gaps.{first_gap, greatest_gap, IsFirstGap, IsGap, IsLongestGap, taken_by};
ghost use Rattle.alta_meaning.specs.Holding.{Holding, IsHeld, IsSpaced, IsWell, taken_by_held};
ghost use Rattle.alta_meaning.specs.Known.{Known, admits, known_behind, known_of, replayed};
ghost use Rattle.alta_meaning.specs.Opened.{Opened, IsNamed, IsOpened, bytes_at, deleted_in, levels_in, live_in, table_rows, tables_at};
ghost use Rattle.alta_meaning.specs.Ordered.{AreBelow, AreOrdered, IsOrdered, RowsPrecede};
ghost use Rattle.alta_meaning.specs.Standing.{AreLevels, Means, StandsFor, tables_by, view_of};
ghost use Rattle.alta_meaning.specs.Switching.{empty_held, empty_opened, InPlace, IsFormatted, IsInPlace, IsPut, IsWritten, MayAppend, MayOpen, MayStand, Spares, SparesSlots, with_entry};
ghost use Rattle.alta_meaning.specs.Working.{AllApart, AreJoins, Full, IsJoin, IsWanting, JoinsKeep, LiesWithin, Placed, all_contents, content_to_come, documents_left, entered, flushed, merged, oldest_contents, placed as placed_extent, placed_levels, state_behind, staying, switched, worked, written};
ghost use Rattle.alta_machine.specs.States.{IsState, empty_state};
ghost use Rattle.alta_machine.specs.declared.document.State.{State};
ghost use Rattle.alta_postings.specs.Deltas.{Spells};
ghost use Rattle.alta_root.specs.Root.{IsSound, no_extent};
ghost use Rattle.alta_root.specs.Slots.{HasNoRoot};
ghost use Rattle.alta_root.specs.Switches.{Switched, Switches, slot_range};
ghost use Rattle.alta_root.specs.declared.root.Root.{Root};
ghost use Rattle.alta_meaning.specs.Entries.{Allows, AllowsAll, after_entries, after_entry};
ghost use Rattle.alta_meaning.specs.Levels.{Level};
ghost use Rattle.alta_meaning.specs.Views.{View, state_of};
ghost use Rattle.alta_machine.specs.Changes.{with_deleted};
ghost use Rattle.alta_meaning.specs.Work.{Coming, Job, Task, coming, extents_in, newest, newest_content, stays, steps};

/// An image is read in one way: it is opened as one thing, or breaks a rule first at one place, or has no root, and no two of
/// the three hold at once.
pub fn an_image_is_read_one_way()
    ensures opened { (image : List ℕ) → (o p : Opened) → IsOpened o image → IsOpened p image → o ≡ p }
    ensures place { (image : List ℕ) → (p q : ℕ) → IsBrokenAt image p → IsBrokenAt image q → p ≡ q }
    ensures unbroken { (image : List ℕ) → (o : Opened) → (place : ℕ) → IsOpened o image → IsBrokenAt image place → ⊥ }
    ensures rooted { (image : List ℕ) → (o : Opened) → IsOpened o image → HasNoRoot image → ⊥ }
    ensures broken { (image : List ℕ) → (place : ℕ) → IsBrokenAt image place → HasNoRoot image → ⊥ }
{}

/// Each image has no root, or breaks a rule first at a place, or is opened. By [`an_image_is_read_one_way`] no two of the
/// three hold at once.
pub fn an_image_is_opened_or_broken()
    ensures { (image : List ℕ) → HasNoRoot image
        ⊎ (((place : ℕ) × IsBrokenAt image place) ⊎ ((opened : Opened) × IsOpened opened image)) }
{}

/// Where nothing is touched that a root names, what it names and what that means stay, in a longer image too; and where no slot
/// is touched either, the image is opened as before, and stands for its state.
pub fn an_image_stays()
    ensures opened { (ranges : List (ℕ × ℕ)) → (o : Opened) → (old new : List ℕ) → IsOpened o old
        → Touches ranges old new → SparesSlots ranges → Spares ranges o.slot o.root → IsOpened o new }
    ensures stands { (ranges : List (ℕ × ℕ)) → (s : State) → (old new : List ℕ) → (stands : StandsFor s old)
        → Touches ranges old new → SparesSlots ranges
        → Spares ranges stands.opened.slot stands.opened.root → StandsFor s new }
    ensures named { (ranges : List (ℕ × ℕ)) → (o : Opened) → (old new : List ℕ) → IsNamed o old
        → Touches ranges old new → Spares ranges o.slot o.root → IsNamed o new }
    ensures means { (ranges : List (ℕ × ℕ)) → (s : State) → (o : Opened) → (old new : List ℕ) → Means s o old
        → Touches ranges old new → Spares ranges o.slot o.root → Means s o new }
{}

/// What a root names is not met by a slot, by the front of the half that it does not use, or by a gap beside its extents; and the
/// slots are met by neither of the last two.
pub fn a_place_spares_a_root()
    ensures slot { (touched slot : Slot) → (root : Root) → (size : ℕ) → IsSound size root
        → Spares (slot_range touched) slot root }
    ensures half { (n : ℕ) → (slot : Slot) → (root : Root) → (size : ℕ) → n ≤ HALF_BYTES → IsSound size root
        → Spares ((half_start (other slot), n) ∷ []) slot root }
    ensures half_slots { (n : ℕ) → (slot : Slot) → SparesSlots ((half_start slot, n) ∷ []) }
    ensures gap { (slot : Slot) → (root : Root) → (extra : List Extent) → (bytes limit at : ℕ)
        → IsGap (taken_by root extra) bytes limit at → Spares ((at, bytes) ∷ []) slot root }
    ensures gap_slots { (extents : List Extent) → (bytes limit at : ℕ) → IsGap extents bytes limit at
        → SparesSlots ((at, bytes) ∷ []) }
{}

/// While the root is switched to one all of whose parts are there, an image is opened as before or as that root says, and stands
/// for the state of before or for the one that that root means; once it is switched, only the latter.
pub fn a_switch_keeps_or_changes()
    ensures opened { (o coming : Opened) → (old new : List ℕ) → IsOpened o old → MayOpen coming old
        → Switches coming.slot coming.root old new → IsOpened o new ⊎ IsOpened coming new }
    ensures opened_then { (coming : Opened) → (old new : List ℕ) → MayOpen coming old
        → Switched coming.slot coming.root old new → IsOpened coming new }
    ensures stands { (s t : State) → (coming : Opened) → (old new : List ℕ) → StandsFor s old → MayStand t coming old
        → Switches coming.slot coming.root old new → StandsFor s new ⊎ StandsFor t new }
    ensures stands_then { (t : State) → (coming : Opened) → (old new : List ℕ) → MayStand t coming old
        → Switched coming.slot coming.root old new → StandsFor t new }
{}

/// What is known of a state, its next number and its live documents' names and numbers, decides which entries it allows; and what
/// is known behind an entry is what is known of the state behind it.
pub fn entries_are_admitted_as_allowed()
    ensures allowed { (s : State) → (entry : Entry) → admits (known_of s) entry ≡ true → Allows s entry }
    ensures admitted { (s : State) → (entry : Entry) → Allows s entry → admits (known_of s) entry ≡ true }
    ensures behind { (s : State) → (entry : Entry) → known_of (after_entry s entry) ≡ known_behind (known_of s) entry }
    ensures all_allowed { (s : State) → (place : ℕ) → (entries : List Entry) → (known : Known)
        → replayed (known_of s) (placed place entries) ≡ Ok known
        → AllowsAll s entries × (known ≡ known_of (after_entries s entries)) }
    ensures all_admitted { (s : State) → (place : ℕ) → (entries : List Entry) → AllowsAll s entries
        → replayed (known_of s) (placed place entries) ≡ Ok (known_of (after_entries s entries)) }
{}

/// Numbers that rise from 1 to below the next, and names that differ, stay so behind each entry that is admitted, and where a name
/// is left out.
pub fn commands_keep_the_order()
    ensures known { (known : Known) → (entry : Entry) → IsOrdered known → admits known entry ≡ true → 1 ≤ known.next
        → IsOrdered (known_behind known entry) }
    ensures state { (s : State) → (entry : Entry) → IsOrdered (known_of s) → 1 ≤ s.next → Allows s entry
        → IsOrdered (known_of (after_entry s entry)) }
    ensures deleted { (s : State) → (name : List ℕ) → IsOrdered (known_of s)
        → IsOrdered (known_of (with_deleted name s)) }
{}

/// An image that stands for a state is opened, its levels have one content each, and it stands for one state.
pub fn an_image_stands_for_one_state()
    ensures opened { (s : State) → (image : List ℕ) → (stands : StandsFor s image) → IsOpened stands.opened image }
    ensures levels { (o : Opened) → (ls ms : List Level) → (image : List ℕ) → AreLevels o ls image
        → AreLevels o ms image → ls ≡ ms }
    ensures state { (s t : State) → (image : List ℕ) → StandsFor s image → StandsFor t image → s ≡ t }
{}

/// In a state that an image stands for, numbers rise from 1 to below the next, and names differ; and its next number, names and
/// numbers are those that opening finds behind the entries.
pub fn a_state_is_ordered()
    ensures stands { (s : State) → (image : List ℕ) → StandsFor s image → IsOrdered (known_of s) }
    ensures well { (s : State) → (image : List ℕ) → StandsFor s image → IsState s }
    ensures state { (s : State) → IsOrdered (known_of s) → 1 ≤ s.next → IsState s }
    ensures known { (s : State) → (o : Opened) → (image : List ℕ) → (means : Means s o image)
        → means.named.known ≡ known_of s }
{}

/// The first gap and the greatest, as functions, are those that the root's gaps are.
pub fn gaps_are_computed()
    ensures some { (extents : List Extent) → (bytes limit at : ℕ) → first_gap extents bytes limit ≡ Some at
        → IsFirstGap extents bytes limit at }
    ensures none { (extents : List Extent) → (bytes limit : ℕ) → first_gap extents bytes limit ≡ None → (at : ℕ)
        → IsGap extents bytes limit at → ⊥ }
    ensures first { (extents : List Extent) → (bytes limit at : ℕ) → IsFirstGap extents bytes limit at
        → first_gap extents bytes limit ≡ Some at }
    ensures longest { (extents : List Extent) → (limit : ℕ) → IsLongestGap extents limit (greatest_gap extents limit) }
    ensures one { (extents : List Extent) → (limit bytes : ℕ) → IsLongestGap extents limit bytes
        → bytes ≡ greatest_gap extents limit }
{}

/// While an entry that is admitted is appended, an image is opened as before or with the entry, and stands for the state of before
/// or for the one behind the entry; once it is appended, only the latter.
pub fn an_append_keeps_or_adds()
    ensures opened { (o : Opened) → (entry : Entry) → (old new : List ℕ) → (opened : IsOpened o old)
        → MayAppend entry o opened.named.known → Appends o.root.version (half_start o.slot) o.tail entry old new
        → IsOpened o new ⊎ IsOpened (with_entry o entry) new }
    ensures opened_then { (o : Opened) → (entry : Entry) → (old new : List ℕ) → (opened : IsOpened o old)
        → MayAppend entry o opened.named.known → Appends o.root.version (half_start o.slot) o.tail entry old new
        → Appended o.root.version (half_start o.slot) o.tail entry old new → IsOpened (with_entry o entry) new }
    ensures stands { (s : State) → (entry : Entry) → (old new : List ℕ) → (stands : StandsFor s old)
        → MayAppend entry stands.opened stands.means.named.known
        → Appends stands.opened.root.version (half_start stands.opened.slot) stands.opened.tail entry old new
        → StandsFor s new ⊎ StandsFor (after_entry s entry) new }
    ensures stands_then { (s : State) → (entry : Entry) → (old new : List ℕ) → (stands : StandsFor s old)
        → MayAppend entry stands.opened stands.means.named.known
        → Appends stands.opened.root.version (half_start stands.opened.slot) stands.opened.tail entry old new
        → Appended stands.opened.root.version (half_start stands.opened.slot) stands.opened.tail entry old new
        → StandsFor (after_entry s entry) new }
{}

/// What was written is read: a list in its stream, a level in its segment, and levels whose rows rise, lie below the next ones of
/// the root, and whose live names differ.
pub fn what_is_written_is_read()
    ensures list { (root : Root) → (deleted image : List ℕ) → Spells (bytes_at root.deletions image) deleted
        → deleted_in root image ≡ Ok deleted }
    ensures level { (level : Level) → (image : List ℕ) → AreBytes (bytes_at level.extent image)
        → length (bytes_at level.extent image) ≡ level.extent.bytes → level.extent.bytes < 2 ^ 64
        → IsSegment (bytes_at level.extent image) level.content → tables_at level.extent image ≡ Ok (tables_by level) }
    ensures levels { (root : Root) → (deleted : List ℕ) → (levels : List Level) → (image : List ℕ)
        → root.levels.items ≡ map (λ (l : Level). l.extent) levels
        → All (λ (l : Level). tables_at l.extent image ≡ Ok (tables_by l)) levels
        → RowsPrecede (table_rows (map tables_by levels)) → AreBelow root (table_rows (map tables_by levels))
        → AreOrdered (live_in deleted (table_rows (map tables_by levels)))
        → levels_in root deleted image ≡ Ok (map tables_by levels) }
{}

/// An image that has what is held stands for the state of its view, and has a deletion list only where ends are deleted.
pub fn what_is_held_stands()
    ensures stands { (held : Holding) → (image : List ℕ) → IsHeld held image → StandsFor (state_of held.view) image }
    ensures none { (held : Holding) → (image : List ℕ) → IsHeld held image → held.list ≡ no_extent
        → held.view.deleted ≡ [] }
{}

/// What a flush writes, where it joins no levels, is the same state; also with an empty journal, where a root is raised to the last
/// version.
pub fn a_flush_keeps_the_state()
    ensures { (limit : ℕ) → (held then : Holding) → IsSpaced held.view
        → (length held.view.levels == 16 && nat_le 1 (length (newest_content held.view).documents)) ≡ false
        → written limit held ≡ Ok then → state_of then.view ≡ state_of held.view }
{}

/// A switch of the root whose contents have the documents of the state, without the ends that are gone then, changes no state.
pub fn a_switch_keeps_the_state()
    ensures { (limit : ℕ) → (held : Holding) → (levels : List Coming) → (job : Option Job) → (then : Holding)
        → switched limit held levels job ≡ Ok then
        → documents_left held.view (map content_to_come levels) ≡ (state_of held.view).documents
        → state_of then.view ≡ state_of held.view }
{}

/// What is held of an image is spaced, where its newest documents are.
pub fn what_is_held_is_spaced()
    ensures { (held : Holding) → (image : List ℕ) → IsHeld held image → IsSpace (newest held.view)
        → IsSpaced held.view }
{}

/// A root that was written, with its levels, its deletion list and an empty journal, may stand for the state of its levels.
pub fn a_written_root_may_stand()
    ensures { (s : State) → (coming : Opened) → (levels : List Level) → (image : List ℕ)
        → IsWritten coming levels image → state_of (view_of coming levels) ≡ s → IsOrdered (known_of s)
        → MayStand s coming image }
{}

/// A disk that was formatted stands for the state without documents, is opened as the root without levels, and has what is held of it.
pub fn a_formatted_disk_is_empty()
    ensures stands { (image : List ℕ) → IsFormatted image → StandsFor empty_state image }
    ensures opened { (image : List ℕ) → IsFormatted image → IsOpened empty_opened image }
    ensures held { (image : List ℕ) → IsFormatted image → IsHeld empty_held image }
{}

/// What a flush writes is in place under a root with its next number and location.
pub fn a_flush_is_in_place()
    ensures { (limit : ℕ) → (held then : Holding) → (root : Root) → IsSpaced held.view → 1 ≤ held.view.location
        → (length held.view.levels == 16 && nat_le 1 (length (newest_content held.view).documents)) ≡ false
        → written limit held ≡ Ok then
        → root.next_number ≡ then.view.next → root.next_location ≡ then.view.location
        → InPlace root then.view.deleted (map tables_by then.view.levels) }
{}

/// What a task makes of what is held is well formed, if that was.
pub fn work_stays_well()
    ensures { (limit : ℕ) → (held then : Holding) → (task : Task) → IsSpaced held.view → IsWell held
        → worked limit held task ≡ Ok then → IsWell then }
{}

/// What is held goes on where the image does: by an entry that was appended, and by a root that was written and switched to.
pub fn what_is_held_goes_on()
    ensures appended { (held : Holding) → (entry : Entry) → (old new : List ℕ) → (is : IsHeld held old)
        → MayAppend entry is.opened is.is.named.known
        → Appends is.opened.root.version (half_start is.opened.slot) is.opened.tail entry old new
        → Appended is.opened.root.version (half_start is.opened.slot) is.opened.tail entry old new
        → IsHeld (entered held entry) new }
    ensures switched { (then : Holding) → (coming : Opened) → (old new : List ℕ)
        → IsWritten coming then.view.levels old → IsOrdered (known_of (state_of then.view))
        → Switched coming.slot coming.root old new
        → then.view ≡ view_of coming then.view.levels → then.list ≡ coming.root.deletions → IsHeld then new }
{}

/// What a flush writes, where it joins no levels, once it was put on the disk, may stand for the state of before.
pub fn a_flush_may_stand()
    ensures { (limit : ℕ) → (held then : Holding) → (coming : Opened) → (old image : List ℕ) → IsHeld held old
        → IsSpace (newest held.view)
        → (length held.view.levels == 16 && nat_le 1 (length (newest_content held.view).documents)) ≡ false
        → written limit held ≡ Ok then → then.view ≡ view_of coming then.view.levels
        → IsPut coming then.view.levels image → IsWritten coming then.view.levels image
        × MayStand (state_of held.view) coming image }
{}

/// A switch that puts a join in place of the oldest levels, or of all, changes no state.
pub fn a_join_keeps_the_state()
    ensures oldest { (limit : ℕ) → (held then : Holding) → (oldest rest : List Level) → (c : Content)
        → (job : Option Job) → IsSpaced held.view → held.view.levels ≡ oldest ++ rest
        → IsJoin held.view (map (λ (l : Level). l.content) oldest) c
        → switched limit held (coming c ++ map stays rest ++ coming (newest_content held.view)) job ≡ Ok then
        → state_of then.view ≡ state_of held.view }
    ensures all { (limit : ℕ) → (held then : Holding) → (c : Content) → (job : Option Job) → IsSpaced held.view
        → IsJoin held.view (all_contents held.view) c → switched limit held (coming c) job ≡ Ok then
        → state_of then.view ≡ state_of held.view }
{}

/// Flush, merge and step change no state, and an entry changes it as the entry says, where the joins are joins.
pub fn work_keeps_the_state()
    ensures { (limit : ℕ) → (held then : Holding) → (task : Task) → IsSpaced held.view → AreJoins held
        → worked limit held task ≡ Ok then → state_of then.view ≡ state_behind task (state_of held.view) }
{}

/// A place that is found is the first gap of its length. Where work finds none, the gap that it answers is the greatest beside the
/// root's extents and those placed before, each of which is the first gap of its length then, and the need is above it.
pub fn work_finds_gaps()
    ensures first { (taken : List Extent) → (bytes limit : ℕ) → (extent : Extent)
        → placed_extent taken bytes limit ≡ Ok extent → IsFirstGap taken bytes limit extent.place
        × (extent.bytes ≡ bytes) }
    ensures wanting { (limit : ℕ) → (held : Holding) → (task : Task) → (full : Full)
        → worked limit held task ≡ Err full → IsWanting (taken_by_held held) limit full }
{}

/// What flush, merge and step leave is in place, if they switch the root; and where the state stays, what was put on the disk may
/// stand for it.
pub fn work_is_in_place()
    ensures placed { (limit : ℕ) → (held then : Holding) → IsSpaced held.view → AreJoins held → 1 ≤ held.view.location
        → (written limit held ≡ Ok then → IsInPlace then.view)
        × (flushed limit held ≡ Ok then → (then.view ≡ held.view) ⊎ IsInPlace then.view)
        × (merged limit held ≡ Ok then → (then.view ≡ held.view) ⊎ IsInPlace then.view)
        × ((n : ℕ) → worked limit held (steps n) ≡ Ok then → (then.view ≡ held.view) ⊎ IsInPlace then.view) }
    ensures stands { (held then : Holding) → (coming : Opened) → (old image : List ℕ) → IsHeld held old
        → state_of then.view ≡ state_of held.view → IsInPlace then.view → then.view ≡ view_of coming then.view.levels
        → IsPut coming then.view.levels image → IsWritten coming then.view.levels image
        × MayStand (state_of held.view) coming image }
{}

/// Where joins keep documents, the joins that a task may put in place of levels are joins of them.
pub fn joins_are_joins()
    ensures { (held : Holding) → IsSpaced held.view → IsWell held → JoinsKeep (oldest_contents held.view)
        → JoinsKeep (all_contents held.view) → AreJoins held }
{}

/// Where the levels of a root do not meet, and the last of them stay, the levels that are placed do not meet, and lie between head
/// and limit.
pub fn levels_are_placed_apart()
    ensures apart { (limit k : ℕ) → (list : Extent) → (there : List Extent) → (levels : List Coming) → (now : Placed)
        → placed_levels limit (list ∷ there) levels ≡ Ok now → staying levels ≡ drop k there
        → AllApart there → AllApart (extents_in now.levels) }
    ensures within { (limit k : ℕ) → (list : Extent) → (there : List Extent) → (levels : List Coming) → (now : Placed)
        → placed_levels limit (list ∷ there) levels ≡ Ok now → staying levels ≡ drop k there
        → All (LiesWithin limit) there → All (LiesWithin limit) (extents_in now.levels) }
{}
