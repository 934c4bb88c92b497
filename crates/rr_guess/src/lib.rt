//! The search for events of Microsoft Graph that are worth taking out of a set of occurrences, one after another
//! (recurrencePattern, recurrenceRange).
//!
//! The set is looked at second by second of the day, as a row of days. From the settled day on, patterns are taken that have
//! days of the set alone; each is led back before the settled day as far as that pays. Of the days that are left, patterns that
//! have more of them than other days are taken. Every event is valid; what it has in common with the set is for the caller to
//! find.
#![tactic(auto)]

mod bounds;
mod candidate;
mod cover;
mod events;
mod finite;
mod months;
mod order;
mod picks;
mod plan;
mod row;
mod second;
mod start;
mod tail;
mod target;
mod walk;
mod weeks;

pub use cover::guesses;
pub use events::each_day_from;
pub use target::Target;
