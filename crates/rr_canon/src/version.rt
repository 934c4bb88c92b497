// The versions of a descriptor.

/// How a descriptor writes the time sets of moments, and its first line.
#[derive(Clone, Copy, Debug, PartialEq, Eq)]
pub enum Version {
    /// Each second of a time set by itself.
    First,
    /// Time sets as single seconds and rows of equal steps.
    Second,
}
