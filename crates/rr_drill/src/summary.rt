// What is said of a list of series.

/// How many series there are, how many pairs of them, and how many verdicts on the pairs are yes.
#[derive(Clone, Copy, Debug, PartialEq, Eq)]
pub struct Summary {
    /// How many series were drawn.
    pub series: u32,
    /// The unordered pairs of different places.
    pub pairs: u32,
    /// The unordered pairs with equal occurrences.
    pub equal: u32,
    /// The ordered pairs of different places in which each occurrence of the first is one of the second.
    pub within: u32,
    /// The unordered pairs without a common occurrence.
    pub disjoint: u32,
}
