// Laws of tables and their bytes.
ghost use Rattle.std.specs.Prelude.{◌≡◌, ℕ, ◌+◌, ◌<◌, ◌≤◌, ◌^◌, ◌++◌, List, length, take, Ok, Err};
ghost use Rattle.alta_format.specs.Format.{AreBytes};
ghost use Rattle.alta_content.specs.declared.document.DocRow.{DocRow};
ghost use Rattle.alta_table.specs.declared.sizes.Head.{Head};
ghost use Rattle.alta_table.specs.declared.term.TermRow.{TermRow};
ghost use Rattle.alta_table.specs.Tables.{AreTables, HasParts, IsDamage, KeepRules, Tables, head_of, read_head, tables_bytes, tables_of};

/// Reading is the inverse of spelling: what is read keeps the rules and is spelled so, and what keeps the rules is read
/// from its spelling, whatever follows. Where nothing is read, the place is that of the first damage.
pub fn tables_read_back()
    ensures spelled { (bytes : List ℕ) → (place total : ℕ) → (tables : Tables) → AreBytes bytes
        → HasParts bytes place total → tables_of bytes place total ≡ Ok tables → AreTables bytes place total tables }
    ensures read { (bytes : List ℕ) → (place total : ℕ) → (tables : Tables) → AreBytes bytes → total < 2 ^ 64
        → AreTables bytes place total tables → tables_of bytes place total ≡ Ok tables }
    ensures first { (bytes : List ℕ) → (place total p : ℕ) → AreBytes bytes → tables_of bytes place total ≡ Err p
        → IsDamage bytes place total p }
    ensures broken { (bytes : List ℕ) → (place total p : ℕ) → AreBytes bytes → IsDamage bytes place total p
        → tables_of bytes place total ≡ Err p }
{}

/// Tables stand in front of a segment. A whole segment has the parts of which its head speaks; the head of a spelling is
/// read from it; and what is read goes by head, documents and terms alone.
pub fn tables_in_front()
    ensures parts { (bytes : List ℕ) → (place total : ℕ) → AreBytes bytes → total ≤ length bytes
        → HasParts bytes place total }
    ensures head { (bytes behind : List ℕ) → (place total : ℕ) → (documents : List DocRow) → (terms : List TermRow)
        → AreBytes bytes → total < 2 ^ 64
        → KeepRules total documents terms → bytes ≡ tables_bytes documents terms ++ behind
        → read_head bytes place total ≡ Ok (head_of documents terms) }
    ensures same_head { (bytes : List ℕ) → (place total n : ℕ) → 32 ≤ n
        → read_head (take n bytes) place total ≡ read_head bytes place total }
    ensures same { (bytes : List ℕ) → (place total n : ℕ) → (h : Head) → read_head bytes place total ≡ Ok h
        → 32 + h.document_bytes + h.term_bytes ≤ n
        → tables_of (take n bytes) place total ≡ tables_of bytes place total }
{}
