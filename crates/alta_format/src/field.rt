ghost use Rattle.std.specs.Prelude.{◌≡◌, ℕ, length, IfOk};
ghost use Rattle.alta_format.specs.Format.{number_of, text_of, packed, byte, wide};
ghost use Rattle.alta_format.specs.Gives.{AlwaysGives};
ghost use Rattle.alta_format.specs.declared.field.ReadFault.TheVariants.{Memory};

use alta_codec::get_number;
use std::alloc::{AllocError, AllocFailed};

/// Why a row of fields could not be read.
#[derive(Debug, Drop)]
pub enum ReadFault {
    Memory,
    /// How many bytes are left where the first field breaks its rule.
    Broken(usize),
}

impl From<AllocError> for ReadFault {
    ghost from_gives = { λ _ e. e ≡ Memory };

    fn from(_e: AllocError) -> ReadFault {
        ReadFault::Memory
    }
}

impl<T: Drop> From<AllocFailed<T>> for ReadFault {
    ghost from_gives = { λ _ e. e ≡ Memory };

    fn from(_e: AllocFailed<T>) -> ReadFault {
        ReadFault::Memory
    }
}

/// A number in its shortest spelling, and the bytes behind it.
#[tactic(auto, unfolding(crate::specs::Format::number_of))]
pub fn packed_at(bytes: &[u8]) -> Result<(u64, &[u8]), ReadFault>
    ensures { AlwaysGives (λ x. (x.0, x.1.now)) result (number_of packed bytes.now) }
{
    match get_number(bytes, 0) {
        Ok((n, next)) => {
            let (_number, rest) = bytes.split_at(next);
            Ok((n, rest))
        }
        Err(_fault) => Err(ReadFault::Broken(bytes.len())),
    }
}

/// One byte, and those behind it.
#[tactic(auto, unfolding(crate::specs::Format::number_of))]
pub fn byte_at(bytes: &[u8]) -> Result<(u8, &[u8]), ReadFault>
    ensures { AlwaysGives (λ x. (x.0, x.1.now)) result (number_of byte bytes.now) }
{
    match bytes {
        [] => Err(ReadFault::Broken(0)),
        [first, rest @ ..] => Ok((*first, rest)),
    }
}

/// Eight bytes as a number, and those behind them.
#[tactic(auto, unfolding(crate::specs::Format::number_of))]
pub fn wide_at(bytes: &[u8]) -> Result<(u64, &[u8]), ReadFault>
    ensures { AlwaysGives (λ x. (x.0, x.1.now)) result (number_of wide bytes.now) }
{
    if bytes.len() < 8 {
        return Err(ReadFault::Broken(bytes.len()));
    }
    let (front, rest) = bytes.split_at(8);
    let number = u64::from_be_bytes([
        front[0], front[1], front[2], front[3], front[4], front[5], front[6], front[7],
    ]);
    Ok((number, rest))
}

/// That many bytes, and those behind them.
#[tactic(auto, unfolding(crate::specs::Format::text_of))]
pub fn text_at(bytes: &[u8], len: usize) -> Result<(&[u8], &[u8]), ReadFault>
    ensures reads { AlwaysGives (λ x. (x.0.now, x.1.now)) result (text_of len bytes.now) }
    ensures len { IfOk result (λ x. length x.0.now ≡ len) }
{
    if bytes.len() < len {
        return Err(ReadFault::Broken(bytes.len()));
    }
    Ok(bytes.split_at(len))
}
