// An occupied day and its seconds.

use rr_shapes::SetId;

/// An occupied day; its seconds are the first `count` ones of a set in a table.
#[derive(Clone, Copy)]
pub struct OccupiedDay {
    /// The day, in days since 1970-01-01.
    pub day: i64,
    /// The number of its time set in the table that was handed to `next`.
    pub number: SetId,
    /// How many of the set's seconds, from the first on, are the day's: at least 1. A date has the one second 0.
    pub count: usize,
}
