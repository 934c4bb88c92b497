//! Sets of seconds of a day.
#![tactic(auto)]

mod merge;
mod rank;
mod stretch;
mod time_set;

pub use rank::count_below;
pub use stretch::Stretch;
pub use time_set::TimeSet;
