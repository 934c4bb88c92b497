//! Whether two sets of occurrences are equal, one within the other, or disjoint, for all years to come.
#![tactic(auto)]

mod days;
mod decide;
mod long;
mod merge;
mod occurrence;
mod question;
mod quiet;
mod verdicts;

pub use days::Shown;
pub use decide::{disjoint, equal, next_difference, verdict, within};
pub use long::equal_long;
pub use merge::first_shown;
