//! The first rule of vCalendar 1.0 that has the occurrences of a set, or none if no rule has them.
#![tactic(auto)]

mod choice;
mod found;
mod lists;
mod search;
mod tallies;

pub use found::Found;
pub use search::find;
