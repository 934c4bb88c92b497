//! Which moments a rule chooses, one moment at a time, and which positions its candidates have in their units (RFC 5545,
//! section 3.3.10).
#![tactic(auto)]

mod choice;
mod day_counts;
mod laws;
mod nth;
mod select;
mod set_positions;
mod time_counts;

pub use choice::chosen;
pub use laws::{positions_are_by_parts, set_positions_are_by_parts};
pub use nth::{nth_of_unit, rank_of};
