//! Events and recurrences of Microsoft Graph: their JSON, and what they are in RFC 5545.
#![tactic(auto)]

mod event;
mod laws;
mod members;
mod names;
mod pattern;
mod range;
mod reading;
mod recurrence;
mod rule;
mod series;
mod start;
mod writing;
mod written;

pub use event::value_in;
pub use laws::{
    counterpart_has_occurrences, counterpart_is_sound, counterpart_starts_first,
    graph_is_read_back, moving_the_start_keeps_occurrences, refused_where_none_occurs,
};
pub use reading::read;
pub use series::to_series;
pub use writing::write;
