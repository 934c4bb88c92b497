// One of the series of which a set is made.
use rr_model::{Dates, GraphEvent};

/// An event of Microsoft Graph that repeats (event, recurrence), and those of its occurrences that are cancelled (event,
/// cancelledOccurrences).
#[derive(Drop)]
pub struct Part {
    /// The event, which repeats by a pattern.
    pub event: GraphEvent,
    /// The occurrences that are cancelled: day numbers or second numbers, as the event's kind is.
    pub cancelled: Dates,
}
