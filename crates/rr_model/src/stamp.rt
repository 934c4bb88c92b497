// A date or a moment as a text states it.
use crate::Kind;

/// A date or a moment as a text states it (RFC 5545, sections 3.3.4 and 3.3.5).
#[derive(Clone, Copy, Debug, PartialEq, Eq)]
pub struct Stamp {
    /// Whether the text is a date or a moment.
    pub kind: Kind,
    /// Its day number, or 86,400 times the day number plus the second of the day.
    pub at: i64,
    /// Whether a `Z` stands after the moment, which marks it as UTC.
    pub utc: bool,
}
