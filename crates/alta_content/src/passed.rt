// Bytes of which a front was passed.
ghost use Rattle.std.specs.Prelude.{◌≡◌, ◌≤◌, drop, length};

// So many bytes at least are given back at a time.
const LEAST: usize = 65_536;

/// Gives back the memory of bytes in front of a place where they are an eighth of all or more, and answers where those behind it
/// begin then. At most seven bytes move for each that is passed, and the bytes take a seventh more memory than those behind the place,
/// or 64 KiB.
pub fn give_back(bytes: &mut Vec<u8>, place: usize) -> usize
    requires { place ≤ length bytes.old.items }
    ensures left { drop result bytes.new.items ≡ drop place bytes.old.items }
    ensures within { result ≤ length bytes.new.items }
{
    let left = bytes.len() - place;
    if place < LEAST || place < left / 7 {
        return place;
    }
    bytes.copy_within(place.., 0);
    bytes.truncate(left);
    bytes.shrink_to_fit();
    0
}
