// Parts of a disk, each read by one call.
ghost use Rattle.std.specs.Prelude.{◌≡◌, ◌++◌, ◌+◌, ◌-◌, ◌<◌, ◌≤◌, ◌^◌, length, take, IfOk, IfErr, OnOk};
ghost use Rattle.alta_codec.specs.Faults.{HasCause};
ghost use Rattle.alta_disk.specs.Answers.{IfDamaged, IsOutside};
ghost use Rattle.alta_disk.specs.Calls.{Reads, Retrieves};
ghost use Rattle.alta_disk.specs.Disk.{DiskState};
ghost use Rattle.alta_disk.specs.Parts.{part};

use crate::disk::Disk;
use crate::fault::LoadFault;
use alta_codec::{Failed, zeros};
use std::alloc::Global;

/// So many bytes at a place, by one read of the disk.
///
/// # Errors
///
/// `Disk` where the read failed, `Memory` where there was no memory for the bytes.
pub fn read_part<D: Disk>(
    alloc: Global,
    disk: &mut D,
    place: u64,
    bytes: u64,
) -> Result<Vec<u8>, LoadFault>
    requires { D.tells → place + bytes ≤ length (D.state disk.old).content }
    ensures read { D.tells → IfOk result (λ v. v.items ≡ part place bytes (D.state disk.old).content) }
    ensures long { IfOk result (λ v. length v.items ≡ bytes) }
    ensures only { IfErr result IsOutside }
    ensures undamaged { IfDamaged result (λ place. ⊥) }
    ensures retrieves { Retrieves D.tells bytes (D.state disk.old) (D.state disk.new) result }
{
    let mut part = zeros(alloc, bytes as usize)?;
    disk.read(place, &mut part)?;
    Ok(part)
}

/// These bytes, and behind them so many at a place of the disk, by one read.
///
/// # Errors
///
/// `Disk` where the read failed, `Memory` where there was no memory for all of them.
pub fn read_behind<D: Disk>(
    alloc: Global,
    disk: &mut D,
    front: &[u8],
    place: u64,
    bytes: u64,
) -> Result<Vec<u8>, LoadFault>
    requires inside { D.tells → place + bytes ≤ length (D.state disk.old).content }
    requires fits { length front.now + bytes < 2 ^ 64 }
    ensures read { D.tells → IfOk result (λ v. v.items ≡ front.now ++ part place bytes (D.state disk.old).content) }
    ensures front { IfOk result (λ v. take (length front.now) v.items ≡ front.now) }
    ensures long { IfOk result (λ v. length v.items ≡ length front.now + bytes) }
    ensures only { IfErr result IsOutside }
    ensures retrieves { Retrieves D.tells bytes (D.state disk.old) (D.state disk.new) result }
{
    let mut all = Vec::from_slice(alloc, front)?;
    all.resize(front.len() + bytes as usize, 0)?;
    fill_from(disk, place, &mut all, front.len())?;
    Ok(all)
}

// Fills the bytes from this one on with those at a place of the disk.
fn fill_from<D: Disk>(disk: &mut D, place: u64, all: &mut [u8], from: usize) -> Result<(), Failed>
    requires within { from ≤ length all.old }
    requires inside { D.tells → place + (length all.old - from) ≤ length (D.state disk.old).content }
    ensures read { D.tells → OnOk result (all.new ≡ take from all.old
        ++ part place (length all.old - from) (D.state disk.old).content) }
    ensures front { OnOk result (take from all.new ≡ take from all.old) }
    ensures cause { HasCause (D.state disk.old).faults (D.state disk.new).faults result }
    ensures reads { Reads D.tells (length all.old - from) (D.state disk.old) (D.state disk.new) }
{
    let (_front, rest) = all.split_at_mut(from);
    disk.read(place, rest)
}
