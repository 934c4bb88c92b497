//! The days of a pattern of Microsoft Graph, and the first of them in a range (recurrencePattern, recurrenceRange).
#![tactic(auto)]

mod days;
mod first_day;

pub use days::{form_freq, is_day_in, is_pattern_day};
pub use first_day::first_repeat_day;
