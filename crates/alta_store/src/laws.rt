// What follows from the definitions alone. The functions are empty: their contracts are the laws.
ghost use Rattle.std.specs.Prelude.{◌≡◌, ◌+◌, ◌≤◌, ℕ, List, length};
ghost use Rattle.std.specs.List.{All};
ghost use Rattle.alta_content.specs.declared.document.DocRow.{DocRow};
ghost use Rattle.alta_disk.specs.Disk.{DiskState};
ghost use Rattle.alta_meaning.specs.Standing.{StandsFor};
ghost use Rattle.alta_memlevel.specs.Added.{LevelView};
ghost use Rattle.alta_machine.specs.declared.document.State.{State};
ghost use Rattle.alta_store.specs.Agreement.{Agrees, Knows, levels_of};
ghost use Rattle.alta_store.specs.Searched.{FindsDocuments, IsSearched};
ghost use Rattle.alta_store.specs.declared.store.Store.{Store};
ghost use Rattle.alta_table.specs.Tables.{Tables, total_of};

use alta_disk::Disk;

/// A store that agrees with its disk knows the state that the disk stands for; what a search looks at has the documents of that state,
/// and its levels lie on the disk.
pub fn a_search_sees_the_state<D: Disk>()
    ensures knows { (disk : D) (store : Store) → Agrees D.tells (D.state disk) store → (s : State) → D.tells
        → StandsFor s (D.state disk).content → Knows store s }
    ensures finds { (disk : D) (store : Store) → Agrees D.tells (D.state disk) store → (s : State) → D.tells
        → StandsFor s (D.state disk).content
        → (levels : List Tables) (newest : LevelView) (gone : List ℕ) (rows : List DocRow)
        → IsSearched store levels newest gone rows → FindsDocuments levels newest gone s (D.state disk).content }
    ensures within { (disk : D) (store : Store) → Agrees D.tells (D.state disk) store → D.tells
        → All (λ (level : Tables). level.place + total_of level.documents level.terms
        ≤ length (D.state disk).content) (levels_of store) }
{}
