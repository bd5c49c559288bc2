// What a record says.
ghost use Rattle.std.specs.Prelude.{◌≡◌};
ghost use Rattle.alta_journal.specs.Lent.{entry_of};

use alta_codec::Text;

/// What a record says: that a document is added, that one is deleted, or that one takes the place of another.
#[derive(Drop)]
pub enum Entry {
    /// A new document, by its name, its title and its body.
    Add {
        name: Text,
        title: Text,
        body: Text,
    },
    /// The document with this number is gone.
    Delete {
        number: u64,
    },
    /// The document with this number is gone, and a new one comes, by its name, its title and its body.
    Replace {
        number: u64,
        name: Text,
        title: Text,
        body: Text,
    },
}

/// An entry whose texts are lent: what is written and applied, with no copy of a text.
#[derive(Drop)]
pub enum LentEntry<'a> {
    /// As [`Entry::Add`].
    Add {
        name: &'a str,
        title: &'a str,
        body: &'a str,
    },
    /// As [`Entry::Delete`].
    Delete {
        number: u64,
    },
    /// As [`Entry::Replace`].
    Replace {
        number: u64,
        name: &'a str,
        title: &'a str,
        body: &'a str,
    },
}

impl Entry {
    /// The entry, with its texts lent.
    pub fn lent(&self) -> LentEntry<'_>
        ensures { entry_of result ≡ self.now }
    {
        match self {
            Entry::Add { name, title, body } => LentEntry::Add {
                name: name.as_str(),
                title: title.as_str(),
                body: body.as_str(),
            },
            Entry::Delete { number } => LentEntry::Delete { number: *number },
            Entry::Replace {
                number,
                name,
                title,
                body,
            } => LentEntry::Replace {
                number: *number,
                name: name.as_str(),
                title: title.as_str(),
                body: body.as_str(),
            },
        }
    }
}
