// A list that grows, which contracts see as the list of its members.
ghost use Rattle.std.specs.Prelude.{◌≡◌, [], length, slice_get, option_copied};
ghost use Rattle.alta_codec.specs.Lists.{Pushes};

use std::alloc::{AllocError, Global};
use std::marker::Model;

/// A list that grows. Contracts see the list of its members.
#[derive(Drop)]
pub struct Listed<T: Drop> {
    items: Vec<T>,
}

impl<T: Drop> Model for Listed<T> {
    ghost use Rattle.std.specs.Prelude.{List};

    ghost Value = { List T };

    ghost view = { λ l. l.items.items };
}

impl<T: Drop> Listed<T> {
    /// No members.
    pub fn new(alloc: Global) -> Listed<T>
        ensures { result ≡ [] }
    {
        Listed {
            items: Vec::new(alloc),
        }
    }

    /// These members, without a copy.
    pub fn from_vec(items: Vec<T>) -> Listed<T>
        ensures { result ≡ items.items }
    {
        Listed { items }
    }

    /// The vector that holds the members, without a copy.
    pub fn into_vec(self) -> Vec<T>
        ensures { result.items ≡ self }
    {
        self.items
    }

    /// Adds a member at the end. Where memory is wanting the list stays.
    pub fn push(&mut self, item: T) -> Result<(), AllocError>
        ensures { Pushes item self.old self.new result }
    {
        self.items.push(item)?;
        Ok(())
    }

    /// How many members there are.
    pub fn len(&self) -> usize
        ensures { result ≡ length self.now }
    {
        self.items.len()
    }

    /// The member at an index, None past the end.
    pub fn get(&self, i: usize) -> Option<&T>
        ensures { option_copied result ≡ slice_get self.now i }
    {
        self.items.get(i)
    }

    /// The members, borrowed.
    pub fn as_slice(&self) -> &[T]
        ensures { result.now ≡ self.now }
    {
        &self.items
    }
}
