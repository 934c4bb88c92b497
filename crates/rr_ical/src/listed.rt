// The values of a list of dates, before the list is complete.
use rr_model::{Dates, Stamp};

/// The values of a list as far as they are read.
#[derive(Drop)]
pub struct ListedDates {
    /// The first value, which is the start.
    pub first: Option<Stamp>,
    /// The last value, a day number or a second number; 0 if there is none.
    pub last: i64,
    /// How many values, at most 10,000.
    pub count: usize,
    /// The values after the first.
    pub plus: Dates,
}
