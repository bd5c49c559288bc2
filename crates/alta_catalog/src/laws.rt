// What follows from the definitions alone. The functions are empty: their contracts are the laws.
ghost use Rattle.std.specs.Prelude.{◌≡◌, ◌++◌, ◌<◌, ◌≤◌, ℕ, Bool, Contains, List, [], Err, map};
ghost use Rattle.std.specs.List.{All, filter};
ghost use Rattle.alta_content.specs.Rows.{RowsRise, end_of};
ghost use Rattle.alta_content.specs.declared.document.DocRow.{DocRow};
ghost use Rattle.alta_meaning.specs.Entries.{IsRefusedAt, after_entry};
ghost use Rattle.alta_meaning.specs.Known.{known_of, replayed};
ghost use Rattle.alta_meaning.specs.Levels.{Level};
ghost use Rattle.alta_meaning.specs.Opened.{IsNamed, IsOpened, Opened, known_at, table_rows};
ghost use Rattle.alta_meaning.specs.Standing.{Means, StandsFor, view_of};
ghost use Rattle.alta_meaning.specs.Switching.{with_entry};
ghost use Rattle.alta_meaning.specs.Work.{gone, gone_among, newest, level_rows};
ghost use Rattle.alta_journal.specs.declared.entry.Entry.{Entry};
ghost use Rattle.alta_journal.specs.declared.placed.Placed.{Placed};
ghost use Rattle.alta_memlevel.specs.Added.{Added};
ghost use Rattle.alta_machine.specs.declared.document.State.{State};
ghost use Rattle.alta_root.specs.declared.root.Root.{Root};
ghost use Rattle.alta_table.specs.Tables.{Tables};
ghost use Rattle.alta_catalog.specs.Knowing.{Follows, Knows, KnowsBy, gone_of, levels_of, memory_of};
ghost use Rattle.alta_catalog.specs.Replacing.{ends_in};
ghost use Rattle.alta_catalog.specs.Rows.{MayBe, MayStart};
ghost use Rattle.alta_catalog.specs.declared.catalog.Catalog.{Catalog};

/// What an image is opened as may speak of the state that the image stands for.
pub fn a_state_may_be()
    ensures stands { (s : State) → (image : List ℕ) → (stands : StandsFor s image) → MayBe s stands.opened }
    ensures means { (s : State) → (o : Opened) → (image : List ℕ) → Means s o image → MayBe s o }
{}

/// A root with its deleted ends and levels may speak of a state, before the entries.
pub fn a_root_may_start()
    ensures { (root : Root) → (deleted : List ℕ) → (levels : List Tables)
        → (s : State) × MayStart s root deleted levels }
{}

/// Whatever is opened may speak of a state, also where a stream or a summary of a level is bad.
pub fn something_may_be()
    ensures { (o : Opened) → (s : State) × MayBe s o }
{}

/// With an entry more, what is opened may speak of the states behind the entry of those of before, and of no others.
pub fn an_entry_goes_on()
    ensures entered { (s : State) → (o : Opened) → (entry : Entry) → MayBe s o
        → MayBe (after_entry s entry) (with_entry o entry) }
    ensures before { (t : State) → (o : Opened) → (entry : Entry) → MayBe t (with_entry o entry)
        → (s : State) × MayBe s o × (t ≡ after_entry s entry) }
    ensures none { (s : State) → (o : Opened) → o.entries ≡ [] → MayBe s o → MayStart s o.root o.deleted o.levels }
{}

/// Of all states of which an opened image may speak the same is known, next number and live documents' names and numbers: what opening
/// tests the entries against, and what it finds behind them.
pub fn what_may_be_is_known()
    ensures start { (s : State) → (root : Root) → (deleted : List ℕ) → (levels : List Tables)
        → MayStart s root deleted levels → known_of s ≡ known_at root deleted levels }
    ensures behind { (s : State) → (o : Opened) → (image : List ℕ) → (is : IsNamed o image) → MayBe s o
        → is.known ≡ known_of s }
    ensures refused { (s : State) → (found : List Placed) → (place : ℕ) → IsRefusedAt s found place
        → replayed (known_of s) found ≡ Err place }
{}

/// Of all states at which a catalog stands the same is known.
pub fn a_catalog_knows_one()
    ensures { (c : Catalog) → (s t : State) → Knows c s → Knows c t → known_of s ≡ known_of t }
{}

/// What a catalog that follows an opened image has gone are the ends that are gone from its view, by the deletion list, or by an entry that
/// leaves a document out; and so they are among any of its rows. The levels' documents end below the root's next location, and the newest
/// begin at or behind it.
pub fn what_is_gone()
    ensures gone { (c : Catalog) → (s : State) → (o : Opened) → (image : List ℕ) → (levels : List Level)
        → IsOpened o image → (may : MayBe s o) → KnowsBy c may.starts.olds s → Follows c o.root o.entries
        → levels_of c ≡ o.levels → level_rows levels ≡ table_rows o.levels → gone_of c ≡ gone (view_of o levels) }
    ensures among { (c : Catalog) → (s : State) → (o : Opened) → (image : List ℕ) → (levels : List Level)
        → IsOpened o image → (may : MayBe s o) → KnowsBy c may.starts.olds s → Follows c o.root o.entries
        → levels_of c ≡ o.levels → level_rows levels ≡ table_rows o.levels → (rows : List DocRow)
        → All (Contains (level_rows levels ++ map (λ (a : Added). a.row) (newest (view_of o levels)))) rows
        → ends_in (gone_of c) rows ≡ gone_among (view_of o levels) rows }
    ensures below { (o : Opened) → (image : List ℕ) → IsOpened o image
        → All (λ (row : DocRow). end_of row < o.root.next_location) (table_rows o.levels) }
    ensures behind { (c : Catalog) → (root : Root) → (entries : List Entry) → Follows c root entries
        → All (λ (row : DocRow). root.next_location ≤ row.first) (memory_of c).content.documents }
{}

/// Some of the rows of levels and of newest documents, in order, rise without meeting.
pub fn some_rows_rise()
    ensures { (c : Catalog) → (s : State) → (kept : DocRow → Bool) → Knows c s
        → RowsRise (filter kept (table_rows (levels_of c) ++ (memory_of c).content.documents)) }
{}
