// What an event is found again by (RFC 5545, section 3.8.4.7; Microsoft Graph, event, iCalUId).
ghost use Rattle.std.specs.Prelude.{◌≡◌, IfOk};
ghost use Rattle.rr_seam.specs.Keys.{key_cmp};

use rr_model::{Bytes, NoMemory};
use std::alloc::Global;
use std::cmp::Ordering;

/// What an event is found again by.
#[derive(Drop)]
pub enum Key {
    /// The number of the line of its BEGIN, if it has no name or an empty one (iCalendar, vCalendar).
    Line(u64),
    /// Its number in a list of Microsoft Graph, from 1, if it has no name or an empty one.
    Number(u64),
    /// Its name, which is not empty: the value of its first UID line, or its iCalUId.
    Uid(Bytes),
}

/// The order of keys: first those of lines, then those of numbers, each by their numbers, then names by their bytes.
pub fn compare_keys(a: &Key, b: &Key) -> Ordering
    ensures { result ≡ key_cmp a.now b.now }
{
    match (a, b) {
        (Key::Line(n), Key::Line(m)) | (Key::Number(n), Key::Number(m)) => n.cmp(m),
        (Key::Line(_), _) | (Key::Number(_), Key::Uid(_)) => Ordering::Less,
        (_, Key::Line(_)) | (Key::Uid(_), Key::Number(_)) => Ordering::Greater,
        (Key::Uid(u), Key::Uid(v)) => u.as_slice().cmp(v.as_slice()),
    }
}

/// A copy of a key, in memory of its own.
pub fn copy_key(alloc: Global, key: &Key) -> Result<Key, NoMemory>
    ensures { IfOk result (λ made. made ≡ key.now) }
{
    match key {
        Key::Line(number) => Ok(Key::Line(*number)),
        Key::Number(number) => Ok(Key::Number(*number)),
        Key::Uid(uid) => Ok(Key::Uid(Bytes::of(alloc, uid.as_slice())?)),
    }
}
