//! Rules and series of vCalendar 1.0 (basic recurrence rule grammar): their text, and what they are in RFC 5545.
#![tactic(auto)]

mod beside;
mod calendar;
mod counterpart;
mod heads;
mod items;
mod language;
mod laws;
mod numbers;
mod rule;
mod rule_text;
mod series;
mod words;
mod written;

pub use calendar::{read, read_scan};
pub use counterpart::to_rule;
pub use laws::{
    counterpart_has_members, counterpart_has_occurrences, counterpart_is_synchronised,
    vcal_is_read_back,
};
pub use series::to_series;
pub use written::write;
