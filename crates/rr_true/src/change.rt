// A change of a zone's offset.

/// From a moment of UTC on local time is so far ahead of UTC.
#[derive(Clone, Copy, Debug, PartialEq, Eq)]
pub struct Change {
    /// The moment, in seconds since 1970-01-01T00:00:00 of UTC.
    pub at: i64,
    /// Local time less UTC from then on, in seconds.
    pub offset: i32,
}
