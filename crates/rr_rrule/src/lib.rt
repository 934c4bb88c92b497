//! Reads and writes calendar texts with their recurrence rules (RFC 5545, sections 3.3.10 and 3.8.5).
#![tactic(auto)]

mod calendar;
mod laws;
mod part_text;
mod rule_text;
mod stated;
mod write_line;
mod write_series;

pub use calendar::{read, read_scan};
pub use laws::{
    calendar_is_read_back, case_does_not_matter, folding_does_not_matter, line_ends_do_not_matter,
    order_does_not_matter,
};
pub use write_series::write;
