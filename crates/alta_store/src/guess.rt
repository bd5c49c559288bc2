// A guess at the record that comes next.
ghost use Rattle.std.specs.Prelude.{◌≡◌};

use alta_catalog::Catalog;
use alta_codec::Text;
use alta_journal::Ready;
use std::marker::Model;

/// A guess at the record that comes next, whose body may be written ahead. What is written ahead counts for nothing until its gate is
/// open, so contracts see no guess: each call does the same whatever it is.
#[derive(Drop)]
pub(crate) struct Guess {
    coming: Option<Coming>,
}

/// A record for a document, made ready while the live document with its name had this number, or while there was none.
#[derive(Drop)]
pub(crate) struct Coming {
    pub(crate) name: Text,
    pub(crate) number: Option<u64>,
    pub(crate) ready: Ready,
}

impl Model for Guess {
    ghost Value = { Unit {0} };

    ghost view = { λ guess. tt };
}

impl Guess {
    pub(crate) fn none() -> Guess {
        Guess { coming: None }
    }

    pub(crate) fn of(coming: Coming) -> Guess {
        Guess {
            coming: Some(coming),
        }
    }

    // Takes the record out, where it is the one that the documents of now give, and a root of this version may have it.
    pub(crate) fn take(&mut self, version: u8, catalog: &Catalog) -> Option<Ready> {
        let Coming {
            name,
            number,
            ready,
        } = self.coming.take()?;
        let is_one = version != 1 && catalog.has_room();
        if is_one && catalog.number_of(name.as_str()) == number {
            Some(ready)
        } else {
            None
        }
    }
}
