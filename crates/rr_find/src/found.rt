// What the search for a rule finds.
use rr_model::{Kind, VRule};

/// A rule of vCalendar 1.0 with its start.
#[derive(Drop)]
pub struct Found {
    /// Whether its occurrences are dates or moments.
    pub kind: Kind,
    /// The first occurrence, a day number or a second number of the years 1 to 9999.
    pub start: i64,
    /// The rule, whose end is the set's: without an end, or with the number of its occurrences.
    pub rule: VRule,
}
