// The caller's bytes, in which an answer is left.
ghost use Rattle.std.specs.Prelude.{◌≡◌, ◌++◌, ◌<◌, length, drop, IsTrue, IsFalse};
ghost use Rattle.rr_c.specs.Returned.{IsLeft};

/// The number returned if the words are no text in UTF-8: the programs' exit status for such words.
pub const NO_TEXT: u32 = 7;

/// The number returned if the answer has more bytes than the room.
pub const TOO_SMALL: u32 = 8;

// Puts the bytes at the front of a room that has enough of them, and says whether it has.
fn put(text: &[u8], room: &mut [u8]) -> bool
    ensures put { IsTrue result → room.new ≡ text.now ++ drop (length text.now) room.old }
    ensures left { IsFalse result → (length room.old < length text.now) × (room.new ≡ room.old) }
{
    if text.len() > room.len() {
        return false;
    }
    let (front, _) = room.split_at_mut(text.len());
    front.copy_from_slice(text);
    true
}

/// Leaves an answer in a room that has enough bytes, and their number in `length` whether it has or not. It returns the number of the answer's
/// status, or 8 if the room is too small.
pub fn leave(text: &[u8], status: u8, room: &mut [u8], length: &mut u64) -> u32
    ensures { IsLeft status text.now room.old room.new result length.new }
{
    *length = text.len() as u64;
    if put(text, room) {
        status as u32
    } else {
        TOO_SMALL
    }
}
