// Gives bytes out whole.
ghost use Rattle.std.specs.Prelude.{◌≡◌, ◌≤◌, OnOk, OnErr};
ghost use Rattle.alta_codec.specs.Faults.{Rose};
ghost use Rattle.alta_console.specs.Giving.{Gives, GivesPart};

use alta_codec::Failed;
use alta_console::Console;

/// Gives all the bytes, piece by piece.
///
/// # Errors
///
/// `Failed` where a give failed; some of the bytes went out before, and not all.
pub(crate) fn give_all<C: Console>(console: &mut C, bytes: &[u8]) -> Result<(), Failed>
    ensures ok { OnOk result (Gives (C.told console.old) (C.told console.new) bytes.now) }
    ensures err { OnErr result (GivesPart (C.told console.old) (C.told console.new) bytes.now) }
    ensures input_kept { C.left console.new ≡ C.left console.old }
    ensures take_count { C.take_faults console.old ≤ C.take_faults console.new }
    ensures give_count { C.give_faults console.old ≤ C.give_faults console.new }
    ensures failed { OnErr result (Rose (C.give_faults console.old) (C.give_faults console.new)) }
{
    let mut sent = 0;
    while sent < bytes.len() {
        match console.give(&bytes[sent..]) {
            Ok(n) => sent += n,
            Err(failed) => return Err(failed),
        }
    }
    Ok(())
}
