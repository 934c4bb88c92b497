// The occurrence of a number.
use rr_model::Kind;

/// What is the occurrence of a number, the first one as number 1.
#[derive(Clone, Copy, Debug, PartialEq, Eq)]
pub enum Nth {
    /// There is one, and this is it.
    At {
        /// Whether it is a date or a moment.
        kind: Kind,
        /// Days since 1970-01-01 of a date, seconds since its midnight of a moment.
        at: i64,
    },
    /// The set has fewer occurrences than the number.
    Fewer,
    /// There is one, and its day is past the greatest one, 3,000,000,000,000.
    Past,
}
