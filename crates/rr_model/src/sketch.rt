// A set of occurrences that repeats from some day on.
use crate::{DayShapes, Kind, Seconds};

/// An occupied day with its seconds.
#[derive(Drop)]
pub struct DayShape {
    /// The day, in days since 1970-01-01.
    pub day: i64,
    /// The seconds of the day, 0 alone for a date.
    pub times: Seconds,
}

/// A set of occurrences that repeats from some day on.
#[derive(Drop)]
pub struct Sketch {
    /// Whether the occurrences are dates or moments.
    pub kind: Kind,
    /// The occupied days before `settled`.
    pub before: DayShapes,
    /// The day from which on it repeats, in days since 1970-01-01.
    pub settled: i64,
    /// After how many days it repeats, from 1.
    pub period: u64,
    /// The occupied days of the first period.
    pub cycle: DayShapes,
}
