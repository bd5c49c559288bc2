// A list of bounds.
ghost use Rattle.std.specs.Prelude.{◌≡◌, IfOk};

use crate::bound::Bound;
use std::alloc::AllocError;
use std::marker::Model;
use std::ops::DerefSlice;

/// Bounds between readers, which hold together.
#[derive(Drop)]
pub struct System {
    bounds: Vec<Bound>,
}

impl Model for System {
    ghost use Rattle.std.specs.Prelude.{List};
    ghost use Rattle.alta_codec.specs.Inequality.{Inequality};

    ghost Value = { List Inequality };

    ghost view = { λ s. s.bounds.items };
}

impl System {
    /// The system of these bounds.
    pub fn new(bounds: Vec<Bound>) -> System
        ensures { result ≡ bounds.items }
    {
        System { bounds }
    }

    /// An equal system.
    pub fn copy(&self) -> Result<System, AllocError>
        ensures { IfOk result (λ s. s ≡ self.now) }
    {
        Ok(System {
            bounds: self.bounds.clone()?,
        })
    }
}

impl DerefSlice for System {
    type Elem = Bound;

    ghost deref_gives = { λ system bounds. bounds ≡ system };

    /// Its bounds, in order.
    fn deref(&self) -> &[Bound] {
        &self.bounds
    }
}

impl From<System> for Vec<Bound> {
    ghost from_gives = { λ system bounds. bounds.items ≡ system };

    /// Its bounds, in order, by value.
    fn from(system: System) -> Vec<Bound> {
        let System { bounds } = system;
        bounds
    }
}
