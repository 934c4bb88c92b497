// What is asked of two series.

/// What is asked of two sets of occurrences, for all years to come.
#[derive(Clone, Copy)]
pub enum Question {
    /// Whether both have exactly the same occurrences.
    Equal,
    /// Whether the second has each occurrence of the first.
    Within,
    /// Whether no occurrence is in both.
    Disjoint,
}
