// The folding of a text, with a short road for ASCII, which needs no table and no decoding.
ghost use Rattle.std.specs.Prelude.{◌≡◌, ◌≤◌, ◌++◌, length, take, drop, map, string_bytes, IfOk, OnOk, OnErr};
ghost use Rattle.std.specs.Char.{to_ascii_lowercase};
ghost use Rattle.alta_text.specs.Words.{folded_of};

use caseless::default_case_fold_str;
use std::alloc::{AllocError, Global};

/// The text by Unicode's full case folding.
#[tactic(auto, using(crate::proofs::Foldings::laws))]
pub fn folded(alloc: Global, written: &str) -> Result<String, AllocError>
    ensures { IfOk result (λ folded. string_bytes folded ≡ folded_of written.now) }
{
    if written.is_ascii() {
        return written.to_ascii_lowercase(alloc);
    }
    default_case_fold_str(alloc, written)
}

/// Appends the text's folding to the bytes. Where memory is wanting they stay as they are.
#[tactic(auto, using(crate::proofs::Foldings::laws))]
pub fn put_folded(out: &mut Vec<u8>, written: &str) -> Result<(), AllocError>
    ensures appended { OnOk result (out.new.items ≡ out.old.items ++ folded_of written.now) }
    ensures kept { OnErr result (out.new.items ≡ out.old.items) }
{
    if written.is_ascii() {
        return put_lowercase(out, written);
    }
    let folded = default_case_fold_str(*out.allocator(), written)?;
    out.extend_from_slice(folded.as_bytes())
}

/// Appends the text with its ASCII letters in lower case.
fn put_lowercase(out: &mut Vec<u8>, text: &str) -> Result<(), AllocError>
    ensures appended { OnOk result (out.new.items ≡ out.old.items ++ map to_ascii_lowercase text.now) }
    ensures kept { OnErr result (out.new.items ≡ out.old.items) }
{
    let start = out.len();
    out.extend_from_slice(text.as_bytes())?;
    lowercase_from(out.as_mut_slice(), start);
    Ok(())
}

/// Puts the ASCII letters from a place on in lower case.
fn lowercase_from(bytes: &mut [u8], start: usize)
    requires { start ≤ length bytes.old }
    ensures { bytes.new ≡ take start bytes.old ++ map to_ascii_lowercase (drop start bytes.old) }
{
    bytes[start..].make_ascii_lowercase();
}
