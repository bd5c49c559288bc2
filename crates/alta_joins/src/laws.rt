// Laws of levels that are read, and of their joins. The functions have nothing to run: their contracts are the laws.
ghost use Rattle.std.specs.Prelude.{◌≡◌, ℕ, ◌+◌, ◌<◌, ◌≤◌, List, [], ◌∷◌, ◌++◌, All, Some, length, map, take};
ghost use Rattle.alta_layout.specs.declared.slot.Slot.{Slot};
ghost use Rattle.alta_codec.specs.Bytes.{AreBytes};
ghost use Rattle.alta_content.specs.Joining.{joined_in, terms_in, rows_in};
ghost use Rattle.alta_content.specs.Lists.{IsContent};
ghost use Rattle.alta_content.specs.Parts.{IsPart, MayJoin};
ghost use Rattle.alta_content.specs.Rows.{AreDocuments, live_rows};
ghost use Rattle.alta_content.specs.declared.content.Content.{Content};
ghost use Rattle.alta_content.specs.TermList.{TermList};
ghost use Rattle.alta_content.specs.declared.document.DocRow.{DocRow};
ghost use Rattle.alta_meaning.specs.Broken.{HasLevels};
ghost use Rattle.alta_meaning.specs.Holding.{Holding, IsHeld, IsJobOf, IsSpaced, IsWell};
ghost use Rattle.alta_meaning.specs.Levels.{Level, document_of};
ghost use Rattle.alta_meaning.specs.Opened.{Opened, IsOpened, bytes_at, table_rows, extent_of};
ghost use Rattle.alta_meaning.specs.Ordered.{AreBelow, RowsPrecede};
ghost use Rattle.alta_meaning.specs.Standing.{AreLevels, tables_by};
ghost use Rattle.alta_meaning.specs.Views.{View};
ghost use Rattle.alta_meaning.specs.Work.{gone as gone_from, newest};
ghost use Rattle.alta_meaning.specs.Working.{AreJoins, IsJoin, JoinsKeep, all_contents, oldest_contents};
ghost use Rattle.alta_joins.specs.Contents.{AreContentsOf, AreSegmentsOn, StandsOn, levels_with};
ghost use Rattle.alta_joins.specs.Jobs.{AreJoinedOn, DeadAreGone, IsJoining, IsMerging, moved_by};
ghost use Rattle.alta_memlevel.specs.Added.{Added, HasContent, IsSpace, live_of};
ghost use Rattle.alta_memlevel.specs.Documents.{AreAdded, IsBefore, content_of};
ghost use Rattle.alta_merge.specs.Merging.{Merging};
ghost use Rattle.alta_root.specs.declared.root.Root.{Root};
ghost use Rattle.alta_table.specs.Tables.{Tables};

/// The tables that opening finds stand on the image; with contents that were read they are the levels of what is opened; and where
/// what is opened has levels, their contents are those that are read.
pub fn read_levels_are_opened()
    ensures found { (slot : Slot) → (root : Root) → (deleted : List ℕ) → (levels : List Tables) → (image : List ℕ)
        → AreBytes image → HasLevels slot root deleted levels image
        → All (StandsOn image) levels }
    ensures stand { (o : Opened) → (image : List ℕ) → AreBytes image → IsOpened o image
        → All (StandsOn image) o.levels }
    ensures levels { (o : Opened) → (contents : List Content) → (image : List ℕ) → AreBytes image → IsOpened o image
        → AreContentsOf o.levels contents → AreSegmentsOn image o.levels contents
        → AreLevels o (levels_with o.levels contents) image }
    ensures contents { (levels : List Tables) → (contents : List Content) → AreContentsOf levels contents
        → map (λ (l : Level). l.content) (levels_with levels contents) ≡ contents }
    ensures segments { (o : Opened) → (levels : List Level) → (image : List ℕ) → AreBytes image → IsOpened o image
        → AreLevels o levels image
        → AreSegmentsOn image o.levels (map (λ (l : Level). l.content) levels) }
{}

/// Contents of tables whose rows rise may be joined, and so may the content of documents that stand behind them.
pub fn read_contents_may_join()
    ensures levels { (levels : List Tables) → (contents : List Content) → AreContentsOf levels contents
        → AreDocuments (table_rows levels) → MayJoin contents }
    ensures rows { (levels : List Tables) → (contents : List Content) → AreContentsOf levels contents
        → rows_in contents ≡ table_rows levels }
    ensures beside { (levels : List Tables) → (contents : List Content) → (number location : ℕ) → (added : List Added)
        → (content : Content) → AreContentsOf levels contents → AreDocuments (table_rows levels)
        → 1 ≤ number → 1 ≤ location → All (IsBefore number location) (table_rows levels)
        → AreAdded number location added → HasContent added content → MayJoin (contents ++ content ∷ []) }
{}

/// The join of contents that may be joined is a level's content where a row is left, and else empty. Its rows are those of the
/// contents whose end is not dead; they rise where those do, and lie below the next ones of a root where those do.
pub fn joins_are_levels()
    ensures part { (contents : List Content) → (dead : List ℕ) → MayJoin contents → IsPart (joined_in contents dead) }
    ensures level { (contents : List Content) → (dead : List ℕ) → MayJoin contents
        → 0 < length (joined_in contents dead).documents → IsContent (joined_in contents dead) }
    ensures rows { (contents : List Content) → (dead : List ℕ) → (joined_in contents dead).documents
        ≡ live_rows dead (rows_in contents) }
    ensures rise { (contents : List Content) → (dead : List ℕ) → RowsPrecede (rows_in contents)
        → RowsPrecede (joined_in contents dead).documents }
    ensures below { (root : Root) → (contents : List Content) → (dead : List ℕ) → AreBelow root (rows_in contents)
        → AreBelow root (joined_in contents dead).documents }
{}

/// Joins of contents that may be joined keep documents. In place of some that stand beside each other their join may be joined with the
/// others, and the join of all is the same; so documents may be left out before the join that leaves them out.
pub fn joins_keep_documents()
    ensures keep { (contents : List Content) → MayJoin contents → JoinsKeep contents }
    ensures beside { (before middle after : List Content) → (dead : List ℕ) → MayJoin (before ++ (middle ++ after))
        → MayJoin (before ++ joined_in middle dead ∷ after) }
    ensures folds { (before middle after : List Content) → (dead : List ℕ) → MayJoin (before ++ (middle ++ after))
        → joined_in (before ++ joined_in middle dead ∷ after) dead ≡ joined_in (before ++ (middle ++ after)) dead }
    ensures live { (contents : List Content) → (added : List Added) → (gone : List ℕ) → IsSpace added
        → MayJoin (contents ++ content_of added ∷ [])
        → MayJoin (contents ++ content_of (live_of gone added) ∷ [])
        × (joined_in (contents ++ content_of (live_of gone added) ∷ []) gone
        ≡ joined_in (contents ++ content_of added ∷ []) gone) }
{}

/// The documents that the entries of what is held add stand behind its levels, and its levels and their content may be joined; so
/// what a task may put in place of levels are joins of them.
pub fn what_is_held_may_join()
    ensures added { (held : Holding) → (image : List ℕ) → IsHeld held image
        → AreAdded held.view.next held.view.location (newest held.view) }
    ensures spaced { (held : Holding) → (image : List ℕ) → IsHeld held image → IsSpaced held.view }
    ensures oldest { (held : Holding) → (image : List ℕ) → IsHeld held image → MayJoin (oldest_contents held.view) }
    ensures all { (held : Holding) → (image : List ℕ) → IsHeld held image → MayJoin (all_contents held.view) }
    ensures joins { (held : Holding) → (image : List ℕ) → IsHeld held image → IsWell held → AreJoins held }
{}

/// What a join of the two oldest levels comes to is a level's content or empty, and has the rows of both that were not dead. It is
/// a job of what is held, and comes to a join of the two oldest contents; and it goes on while the two oldest levels stay, where
/// more is gone, and behind a step that leaves a term.
pub fn joins_go_on()
    ensures part { (levels : List Tables) → (gone : List ℕ) → (merging : Merging) → IsJoining levels gone merging
        → IsPart merging.whole }
    ensures rows { (levels : List Tables) → (gone : List ℕ) → (merging : Merging)
        → (joining : IsJoining levels gone merging)
        → merging.whole.documents ≡ live_rows joining.job.dead (joining.older.documents ++ joining.newer.documents) }
    ensures held { (held : Holding) → (image : List ℕ) → (levels : List Tables) → (gone : List ℕ) → (merging : Merging)
        → AreBytes image → IsHeld held image
        → levels ≡ map tables_by held.view.levels → gone ≡ gone_from held.view
        → (joining : IsJoining levels gone merging) → AreJoinedOn image joining
        → IsJobOf (Some joining.job) held.view }
    ensures join { (view : View) → (levels : List Tables) → (gone : List ℕ) → (merging : Merging)
        → (joining : IsJoining levels gone merging)
        → oldest_contents view ≡ joining.job.older ∷ joining.job.newer ∷ [] → gone ≡ gone_from view
        → IsJoin view (oldest_contents view) merging.whole }
    // the same two levels are the oldest of others, and all that is gone stays gone
    ensures more { (levels others : List Tables) → (gone ends : List ℕ) → (merging : Merging)
        → (joining : IsJoining levels gone merging) → take 2 others ≡ take 2 levels
        → DeadAreGone gone ends (joining.older.documents ++ joining.newer.documents)
        → (on : IsJoining others ends merging) × (on.job ≡ joining.job)
        × ((image : List ℕ) → AreJoinedOn image joining → AreJoinedOn image on) }
    // the bytes of both levels stay
    ensures stays { (old new : List ℕ) → (levels : List Tables) → (gone : List ℕ) → (merging : Merging)
        → (joining : IsJoining levels gone merging)
        → bytes_at (extent_of joining.older) new ≡ bytes_at (extent_of joining.older) old
        → bytes_at (extent_of joining.newer) new ≡ bytes_at (extent_of joining.newer) old
        → AreJoinedOn old joining → AreJoinedOn new joining }
    ensures moved { (levels : List Tables) → (gone : List ℕ) → (merging later : Merging) → (n : ℕ)
        → (joining : IsJoining levels gone merging) → IsMerging later (moved_by joining.job n)
        → joining.job.merged + n < length (terms_in (joining.job.older ∷ joining.job.newer ∷ []))
        → (on : IsJoining levels gone later) × (on.job ≡ moved_by joining.job n)
        × ((image : List ℕ) → AreJoinedOn image joining → AreJoinedOn image on) }
{}
