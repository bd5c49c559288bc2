// What follows from the definitions alone. The functions are empty: their contracts are the laws.
ghost use Rattle.std.specs.Prelude.{◌≡◌, ◌≤◌, ◌+◌, ◌==◌, ◌&&◌, nat_le, ℕ, true, false, List, [], ◌∷◌, ◌++◌, length, map, take, drop, Some, None};
ghost use Rattle.alta_codec.specs.Bytes.{AreBytes};
ghost use Rattle.alta_content.specs.declared.content.Content.{Content};
ghost use Rattle.alta_content.specs.declared.document.DocRow.{DocRow};
ghost use Rattle.alta_meaning.specs.Holding.{Holding, IsHeld, IsSpaced};
ghost use Rattle.alta_meaning.specs.Levels.{Level};
ghost use Rattle.alta_meaning.specs.Opened.{Opened, IsOpened};
ghost use Rattle.alta_meaning.specs.Standing.{view_of};
ghost use Rattle.alta_meaning.specs.Views.{View};
ghost use Rattle.alta_meaning.specs.Work.{Job, coming, gone, gone_among, is_merged, job_of, newest, newest_content, oldest_joined, level_rows, whole_of};
ghost use Rattle.alta_meaning.specs.Working.{AreJoins, IsJoin, all_contents, merged, stepped, switched, written};
ghost use Rattle.alta_memlevel.specs.Added.{Added, IsSpace, live_of};
ghost use Rattle.alta_memlevel.specs.Documents.{content_of};
ghost use Rattle.alta_rewrite.specs.Rewrites.{AgreesWith, HaveRows, IsGiven, MayRewrite, MayRewriteOpened, Replaces, levels_to_come, no_content, rows_to_come};
ghost use Rattle.alta_rewrite.specs.declared.ends.Ends.{Ends};
ghost use Rattle.alta_rewrite.specs.declared.levels.NextLevels.{NextLevels};
ghost use Rattle.alta_content.specs.Joining.{joined_in, terms_in};

/// Flush, merge and a step that ends a join are rewrites, where they switch the root, and so is a root that is raised to the last
/// version: a flush lets all levels stay, or at 16 levels
/// joins the two oldest; a merge makes one content of all; and a step puts the content of its job in place of the two oldest.
pub fn work_is_a_rewrite()
    ensures flush { (limit : ℕ) → (held : Holding) → (levels : NextLevels)
        → (length held.view.levels == 16 && nat_le 1 (length (newest_content held.view).documents)) ≡ false
        → Replaces levels 0 no_content (newest_content held.view) → written limit held
        ≡ switched limit held (levels_to_come levels held.view) held.job }
    ensures room { (limit : ℕ) → (held : Holding) → (levels : NextLevels)
        → (length held.view.levels == 16 && nat_le 1 (length (newest_content held.view).documents)) ≡ true
        → Replaces levels 2 (oldest_joined held.job held.view) (newest_content held.view)
        → written limit held ≡ switched limit held (levels_to_come levels held.view) None }
    ensures merge { (limit : ℕ) → (held : Holding) → (levels : NextLevels) → is_merged held.view ≡ false
        → Replaces levels (length held.view.levels) (joined_in (all_contents held.view) (gone held.view)) no_content
        → merged limit held ≡ switched limit held (levels_to_come levels held.view) None }
    ensures step { (limit : ℕ) → (held : Holding) → (n : ℕ) → (job : Job) → (levels : NextLevels)
        → job_of held.job held.view ≡ Some job → nat_le (length (terms_in (job.older ∷ job.newer ∷ [])))
        (job.merged + n) ≡ true
        → Replaces levels 2 (whole_of job) (newest_content held.view) → stepped limit held n
        ≡ switched limit held (levels_to_come levels held.view) None }
{}

/// A rewrite that agrees with a view is given what it needs, where a join comes in place of the oldest levels and the newest documents
/// behind all; where a join comes in place of all; and where all levels stay.
pub fn a_join_may_be_written()
    ensures oldest { (view : View) → (levels : NextLevels) → (ends : Ends) → (next location n : ℕ) → (c : Content)
        → IsSpaced view → 1 ≤ view.location → IsJoin view (map (λ (l : Level). l.content) (take n view.levels)) c
        → Replaces levels n c (newest_content view) → AgreesWith view levels ends next location
        → IsGiven view levels ends next location }
    ensures all { (view : View) → (levels : NextLevels) → (ends : Ends) → (next location : ℕ) → (c : Content)
        → IsSpaced view → 1 ≤ view.location → IsJoin view (all_contents view) c
        → Replaces levels (length view.levels) c no_content → AgreesWith view levels ends next location
        → IsGiven view levels ends next location }
    ensures stay { (view : View) → (levels : NextLevels) → (ends : Ends) → (next location : ℕ) → IsSpaced view
        → 1 ≤ view.location → Replaces levels 0 no_content (newest_content view)
        → AgreesWith view levels ends next location
        → IsGiven view levels ends next location }
{}

/// What is held of an image may be rewritten by a flush, by one that makes room, by a merge and by a step that ends a join, where the
/// joins are joins.
pub fn what_is_held_may_be_rewritten()
    ensures flush { (held : Holding) → (levels : NextLevels) → (ends : Ends) → (next location : ℕ) → (image : List ℕ)
        → IsHeld held image → IsSpace (newest held.view) → AgreesWith held.view levels ends next location
        → Replaces levels 0 no_content (newest_content held.view) → MayRewrite held levels ends next location image }
    ensures room { (held : Holding) → (levels : NextLevels) → (ends : Ends) → (next location : ℕ) → (image : List ℕ)
        → IsHeld held image → IsSpace (newest held.view)
        → AgreesWith held.view levels ends next location → AreJoins held
        → Replaces levels 2 (oldest_joined held.job held.view) (newest_content held.view)
        → MayRewrite held levels ends next location image }
    ensures merge { (held : Holding) → (levels : NextLevels) → (ends : Ends) → (next location : ℕ) → (image : List ℕ)
        → IsHeld held image → IsSpace (newest held.view)
        → AgreesWith held.view levels ends next location → AreJoins held
        → Replaces levels (length held.view.levels) (joined_in (all_contents held.view) (gone held.view)) no_content
        → MayRewrite held levels ends next location image }
    ensures step { (held : Holding) → (levels : NextLevels) → (ends : Ends) → (next location : ℕ) → (image : List ℕ)
        → IsHeld held image → IsSpace (newest held.view) → AgreesWith held.view levels ends next location → (job : Job)
        → job_of held.job held.view ≡ Some job → AreJoins held
        → Replaces levels 2 (whole_of job) (newest_content held.view)
        → MayRewrite held levels ends next location image }
{}

/// What an image is opened as may be rewritten, over any levels with its rows: where all levels stay, where a join comes in place of
/// the oldest, and where one comes in place of all.
pub fn what_is_opened_may_be_rewritten()
    ensures stay { (o : Opened) → (there : List Level) → (levels : NextLevels) → (ends : Ends) → (next location : ℕ)
        → (image : List ℕ) → IsOpened o image → AreBytes image → HaveRows o there → IsSpace (newest (view_of o there))
        → AgreesWith (view_of o there) levels ends next location
        → Replaces levels 0 no_content (newest_content (view_of o there))
        → MayRewriteOpened o there levels ends next location image }
    ensures oldest { (o : Opened) → (there : List Level) → (levels : NextLevels) → (ends : Ends) → (next location : ℕ)
        → (image : List ℕ) → IsOpened o image → AreBytes image → HaveRows o there → IsSpace (newest (view_of o there))
        → AgreesWith (view_of o there) levels ends next location → (n : ℕ) → (c : Content)
        → IsJoin (view_of o there) (map (λ (l : Level). l.content) (take n there)) c
        → Replaces levels n c (newest_content (view_of o there))
        → MayRewriteOpened o there levels ends next location image }
    ensures all { (o : Opened) → (there : List Level) → (levels : NextLevels) → (ends : Ends) → (next location : ℕ)
        → (image : List ℕ) → IsOpened o image → AreBytes image → HaveRows o there → IsSpace (newest (view_of o there))
        → AgreesWith (view_of o there) levels ends next location → (c : Content)
        → IsJoin (view_of o there) (all_contents (view_of o there)) c → Replaces levels (length there) c no_content
        → MayRewriteOpened o there levels ends next location image }
{}

/// Which ends of the levels to come are gone: those of rows one behind the other are those of each; of the newest documents that come
/// none is, nor of a join that leaves out what is gone, so that after a merge there is none.
pub fn gone_ends_of_levels_to_come()
    ensures beside { (view : View) → (rows more : List DocRow) → gone_among view (rows ++ more)
        ≡ gone_among view rows ++ gone_among view more }
    ensures newest { (view : View) → (levels : NextLevels) → (n : ℕ) → (c : Content) → IsSpaced view
        → Replaces levels n c (newest_content view)
        → gone_among view (rows_to_come levels view)
        ≡ gone_among view (c.documents ++ level_rows (drop n view.levels)) }
    ensures oldest { (view : View) → (n : ℕ) → IsSpaced view
        → gone_among view (joined_in (map (λ (l : Level). l.content) (take n view.levels)) (gone view)).documents ≡ [] }
    ensures all { (view : View) → (levels : NextLevels) → IsSpaced view
        → Replaces levels (length view.levels) (joined_in (all_contents view) (gone view)) no_content
        → gone_among view (rows_to_come levels view) ≡ [] }
{}

/// A content comes as one level at most.
pub fn a_content_is_one_level_at_most()
    ensures { (content : Content) → length (coming content) ≤ 1 }
{}

/// Levels with the rows of what is opened are spaced, whatever their streams are, where the newest documents are.
pub fn what_is_opened_is_spaced()
    ensures { (o : Opened) → (there : List Level) → (image : List ℕ) → IsOpened o image → AreBytes image
        → HaveRows o there → IsSpace (newest (view_of o there)) → IsSpaced (view_of o there)
        × (1 ≤ o.root.next_location) }
{}
