//! Occurrences by their number, however far they lie, and the rank of a moment among them.
#![tactic(auto)]

mod day_read;
mod laws;
mod nth;
mod ranked;
mod search;
mod sums;
mod turns;

pub use laws::{nth_is_one, nth_of_rank_is_itself, rank_is_one, rank_of_nth_is_its_number};
pub use nth::Nth;
pub use ranked::Ranked;
pub use sums::{Entry, Sums};
