// Lists that were tested.
// Of a selective search nearly all was the read and the test of its longest list, anew each time. Levels are never rewritten in place,
// so what a load tested stays whole as long as the levels stand. A load alone keeps a list: a merge reads its lists back from the disk.
// One mark speaks of the lists of all ends, since the rows of each level have the same ends. Other lists are kept as they were read, the
// longer ones: one of a few hundred locations is read again in less time than many of them are looked up.
ghost use Rattle.std.specs.Prelude.{◌≡◌, ◌≤◌, [], length, IfSome};
ghost use Rattle.alta_loading.specs.Kept.{HasKept, IsNoneKept, KeepsAlso};

use alta_words::Posting;
use std::alloc::Global;
use std::rc::Rc;

/// How many bytes the lists that are kept have at most, all together: some twenty common words of a hundred thousand documents.
const ROOM: u64 = 4 * 1024 * 1024;

/// How many locations a list has at least that is kept.
const LEAST: u64 = 256;

/// Whether the lists of all documents' ends of some levels were tested since these levels last changed. Where they were, none of them
/// is read again: the rows of each level have the same ends.
#[derive(Clone, Copy, Debug, PartialEq, Eq, Drop)]
pub enum Ends {
    /// They are not known to be whole.
    Untested,
    /// Each was loaded, and is whole.
    Tested,
}

/// A list that was tested: that of a row of the level with this number, the oldest being 0.
#[derive(Drop)]
pub(crate) struct KeptList {
    pub(crate) number: u64,
    pub(crate) row: usize,
    pub(crate) posting: Rc<Posting>,
}

impl KeptList {
    // Whether it stands before the list of this row, in the order of levels and of their rows.
    fn is_before(&self, number: u64, row: usize) -> bool {
        self.number < number || (self.number == number && self.row < row)
    }
}

/// What is known of the lists of some levels since these levels last changed: whether those of all ends were tested, and the lists that are
/// kept, so that they are not read again. Their bytes are bounded.
#[derive(Drop)]
pub struct KeptLists {
    pub(crate) ends: Ends,
    // In the order of levels and of their rows.
    lists: Vec<KeptList>,
    bytes: u64,
}

impl KeptLists {
    /// Nothing is known.
    pub fn new(alloc: Global) -> KeptLists
        ensures { IsNoneKept result }
    {
        KeptLists {
            ends: Ends::Untested,
            lists: Vec::new(alloc),
            bytes: 0,
        }
    }

    /// Nothing is known any more: the levels may have changed.
    pub fn forget(&mut self)
        ensures { IsNoneKept self.new }
    {
        self.ends = Ends::Untested;
        self.drop_all();
    }

    // Keeps no list any more.
    fn drop_all(&mut self)
        ensures lists { self.new.lists.items ≡ [] }
        ensures ends { self.new.ends ≡ self.old.ends }
    {
        self.lists.clear();
        self.bytes = 0;
    }

    /// The list that is kept of a row of the level with this number.
    pub(crate) fn get(&self, number: u64, row: usize) -> Option<&Rc<Posting>>
        ensures { IfSome result (λ posting. HasKept self.now number row posting.now.value) }
    {
        let place = place_of(&self.lists, number, row);
        match self.lists.get(place) {
            Some(list) if list.number == number && list.row == row => Some(&list.posting),
            _ => None,
        }
    }

    /// Keeps a list of so many bytes beside the others, or in place of all of them where the room ends. A list that would take more than a
    /// quarter of the room is not kept, and none is where memory is wanting.
    pub(crate) fn keep(&mut self, list: KeptList, bytes: u64)
        ensures { KeepsAlso list.number list.row list.posting.value self.old self.new }
    {
        if bytes > ROOM / 4 {
            return;
        }
        if bytes > ROOM.saturating_sub(self.bytes) {
            self.drop_all();
        }
        let place = place_of(&self.lists, list.number, list.row);
        match self.lists.insert(place, list) {
            Ok(()) => self.bytes = self.bytes.saturating_add(bytes),
            Err(_) => {}
        }
    }
}

/// Whether a list is long enough to be kept.
pub(crate) fn is_long(posting: &Posting) -> bool {
    posting.list_len() >= LEAST
}

// Behind how many of these lists that of a row of the level with this number stands, or belongs.
fn place_of(lists: &[KeptList], number: u64, row: usize) -> usize
    ensures { result ≤ length lists.now }
{
    let mut low = 0;
    let mut high = lists.len();
    while low < high {
        let middle = low + (high - low) / 2;
        if lists[middle].is_before(number, row) {
            low = middle + 1;
        } else {
            high = middle;
        }
    }
    low
}
