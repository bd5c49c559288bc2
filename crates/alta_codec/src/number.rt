// Numbers in little-endian base 128, in their shortest spelling alone.
ghost use Rattle.std.specs.Prelude.{◌≡◌, ℕ, ◌+◌, ◌-◌, ◌<◌, ◌≤◌, ◌++◌, List, length, ◌^◌, drop, slice_index, is_ok, if◌then◌else◌, Ok};
ghost use Rattle.alta_codec.specs.Numbers.{number_bytes, number_from};

use std::alloc::AllocError;

/// Why no number is spelled at a place. Each names the byte that shows it.
#[derive(Clone, Copy, Debug, PartialEq, Eq, Drop)]
pub enum CodeFault {
    /// The bytes end here, before the spelling does.
    Cut(usize),
    /// The byte here is 0 and not the first, so that a shorter spelling says the same.
    Long(usize),
    /// The byte here is the tenth and above 1, so that no u64 has this spelling.
    Wide(usize),
}

/// Appends the shortest spelling of a number in unsigned LEB128 (DWARF 5, section 7.6): seven bits a byte, low bits
/// first, the top bit set on all bytes but the last. That is 1 to 10 bytes. For want of memory `out` stays as it was.
#[inline(always)]
pub fn put_number(out: &mut Vec<u8>, n: u64) -> Result<(), AllocError>
    ensures { out.new.items ≡ (if is_ok result then out.old.items ++ number_bytes n else out.old.items) }
{
    if n < 128 {
        out.push(n as u8)?;
        return Ok(());
    }
    put_long(out, n)
}

// The same for a number of more than one byte.
fn put_long(out: &mut Vec<u8>, n: u64) -> Result<(), AllocError>
    ensures { out.new.items ≡ (if is_ok result then out.old.items ++ number_bytes n else out.old.items) }
{
    out.reserve(10)?;
    let mut rest = n;
    let mut left: usize = 9;
    'sevens: while rest >= 128 {
        out.push_reserved(128 + (rest % 128) as u8);
        rest /= 128;
        left -= 1;
    }
    out.push_reserved(rest as u8);
    Ok(())
}

/// Reads the number whose shortest spelling stands at `from`, which is at most the length: the number and the place
/// after it. The bytes are looked at in order, and the first that decides gives the answer; each cause of a fault
/// names the place of that byte, and `Cut` the length.
#[inline(always)]
pub fn get_number(bytes: &[u8], from: usize) -> Result<(u64, usize), CodeFault>
    requires { from ≤ length bytes.now }
    ensures { result ≡ number_from 9 from (drop from bytes.now) }
{
    if from < bytes.len() && bytes[from] < 128 {
        return Ok((u64::from(bytes[from]), from + 1));
    }
    get_long(bytes, from)
}

// The same for a number of any length.
fn get_long(bytes: &[u8], from: usize) -> Result<(u64, usize), CodeFault>
    requires { from ≤ length bytes.now }
    ensures { result ≡ number_from 9 from (drop from bytes.now) }
{
    let mut value: u64 = 0;
    let mut scale: u64 = 1;
    let mut left: u32 = 9;
    let mut at = from;
    'bytes: while at < bytes.len() {
        let byte = bytes[at];
        if byte == 0 && left < 9 {
            return Err(CodeFault::Long(at));
        }
        if left == 0 {
            if byte == 1 {
                return Ok((value + scale, at + 1));
            }
            return Err(CodeFault::Wide(at));
        }
        if byte < 128 {
            return Ok((value + scale * u64::from(byte), at + 1));
        }
        value += scale * u64::from(byte - 128);
        scale *= 128;
        left -= 1;
        at += 1;
    }
    Err(CodeFault::Cut(at))
}

/// Reading is the inverse of spelling: what is spelled is read, whatever follows, and what is read is spelled there.
pub fn numbers_read_back()
    ensures read { (at n : ℕ) → (more : List ℕ) → n < 2 ^ 64 → number_from 9 at (number_bytes n ++ more)
        ≡ Ok (n, at + length (number_bytes n)) }
    ensures spelled { (at n e : ℕ) → (bytes : List ℕ) → ((i : ℕ) → i < length bytes → slice_index bytes i < 256)
        → number_from 9 at bytes ≡ Ok (n, e)
        → (bytes ≡ number_bytes n ++ drop (e - at) bytes) × (e ≡ at + length (number_bytes n)) × (n < 2 ^ 64) }
{}
