// The answer to a question about two series.
use crate::Kind;

/// Which of two series has an occurrence.
#[derive(Clone, Copy, Debug, PartialEq, Eq)]
pub enum Side {
    /// The first series has it, and the second has not.
    A,
    /// The second series has it, and the first has not.
    B,
    /// Both series have it.
    Both,
}

/// The answer to a question about two series.
#[derive(Clone, Copy, Debug, PartialEq, Eq)]
pub enum Verdict {
    /// It holds for all years to come.
    Yes,
    /// It does not, and this is the first occurrence that shows it.
    No {
        /// Whether the occurrence is a date or a moment.
        kind: Kind,
        /// Its day number, or its second number.
        at: i64,
        /// Which of the two series has the occurrence.
        side: Side,
    },
}
