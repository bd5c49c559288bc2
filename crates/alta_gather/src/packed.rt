// Which of some lists have a location, in four bytes.
ghost use Rattle.std.specs.Prelude.{◌≡◌, ◌↔◌, ◌<◌, IsSome, IfSome};
ghost use Rattle.alta_gather.specs.Holding.{with_list};
ghost use Rattle.alta_gather.specs.Packed.{often};
ghost use Rattle.alta_gather.specs.declared.held.Held.TheVariants.{Never};

use crate::held::Held;
use std::marker::Model;

/// The index of a list, below 2^32 - 2.
#[derive(Clone, Copy)]
pub struct ListIndex {
    index: u32,
}

impl Model for ListIndex {
    ghost use Rattle.std.specs.Prelude.{ℕ, ◌+◌, ◌<◌};
    ghost use Rattle.alta_gather.specs.Packed.{often};

    ghost Value = { ℕ };

    ghost view = { λ l. l.index };

    ghost invariant = { λ l. l.index + 1 < often };

    ghost inverse = { λ n. record { index = n } };
}

impl ListIndex {
    /// This index, if it is below 2^32 - 2.
    pub fn new(index: usize) -> Option<ListIndex>
        ensures some { IsSome result ↔ (index < 4294967294) }
        ensures value { IfSome result (λ l. l ≡ index) }
    {
        if index < 4_294_967_294 {
            Some(ListIndex {
                index: index as u32,
            })
        } else {
            None
        }
    }
}

/// What [`Held`] tells, in four bytes.
#[derive(Clone, Copy, Debug, PartialEq, Eq, Drop)]
pub struct PackedHeld {
    // 0 for none, the greatest number for two lists at least, and between them one more than the index of the list.
    code: u32,
}

impl Model for PackedHeld {
    ghost use Rattle.alta_gather.specs.declared.held.Held.{Held};

    ghost Value = { Held };

    ghost use Rattle.alta_gather.specs.Packed.{code_again, code_of, held_of};

    ghost view = { λ p. held_of p.code };

    ghost inverse = { λ h. record { code = code_of h } };

    ghost inverse_ok = { λ p ok. λ i. record { code = code_again p.code i } };
}

impl PackedHeld {
    /// None of the lists.
    pub fn never() -> PackedHeld
        ensures { result ≡ Never }
    {
        PackedHeld { code: 0 }
    }

    /// What it tells.
    pub fn unpack(self) -> Held
        ensures { result ≡ self }
    {
        match self.code {
            0 => Held::Never,
            u32::MAX => Held::Often,
            code => Held::Once(code - 1),
        }
    }

    /// The same once a further list has it too.
    pub(crate) fn with(self, list: ListIndex) -> PackedHeld
        ensures { result ≡ with_list list self }
    {
        if self.code == 0 {
            PackedHeld {
                code: list.index + 1,
            }
        } else {
            PackedHeld { code: u32::MAX }
        }
    }
}
