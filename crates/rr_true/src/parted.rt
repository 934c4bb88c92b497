// Two zones that are apart by a constant.

/// From a moment of UTC on the first of two zones is always as far ahead of the second.
#[derive(Clone, Copy, Debug, PartialEq, Eq)]
pub struct Apart {
    /// The moment, in seconds since 1970-01-01T00:00:00 of UTC.
    pub from: i64,
    /// Local time in the first zone less local time in the second, in seconds; by 0 they are one zone from then on.
    pub by: i32,
}
