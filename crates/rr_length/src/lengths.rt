// The lengths of the occurrences of one key.
ghost use Rattle.std.specs.Prelude.{◌≡◌, ◌↔◌, IsTrue};

use crate::length::Length;
use std::marker::Model;

/// An occurrence that has a length of its own: an instance that is edited (RFC 5545, section 3.8.4.4).
#[derive(Clone, Copy, Debug, PartialEq, Eq)]
pub struct Dated {
    /// Where it starts: days since 1970-01-01 of a date, seconds since its midnight of a moment.
    pub at: i64,
    /// How long the occurrence lasts.
    pub length: Length,
}

impl Dated {
    // Whether both start at one moment.
    pub(crate) fn is_with(self, other: Dated) -> bool
        ensures { IsTrue result ↔ self.at ≡ other.at }
    {
        self.at == other.at
    }
}

/// The lengths of the occurrences of one key: the usual one, and those of the occurrences that have a length of their own.
///
/// Dated lengths stand in any order. If several stand at one moment, since two instances were moved to it, the longest counts.
#[derive(Drop)]
pub struct KeyLengths {
    usual: Length,
    dated: Vec<Dated>,
}

impl Model for KeyLengths {
    ghost use Rattle.rr_length.specs.Lengths.{Lengths};

    ghost Value = { Lengths };

    ghost view = { λ l. record { usual = l.usual; dated = l.dated.items } };
}

impl KeyLengths {
    /// The lengths of a key: the usual one, and dated ones in any order.
    pub fn of(usual: Length, dated: Vec<Dated>) -> KeyLengths
        ensures { result ≡ record { usual = usual; dated = dated.items } }
    {
        KeyLengths { usual, dated }
    }

    /// The length of each occurrence that has none of its own.
    pub fn usual(&self) -> Length
        ensures { result ≡ self.now.usual }
    {
        self.usual
    }

    /// The lengths of those that have one, in the order in which they were given.
    pub fn dated(&self) -> &[Dated]
        ensures { result.now ≡ self.now.dated }
    {
        self.dated.as_slice()
    }
}
