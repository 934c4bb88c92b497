//! Reads the parts of a recurrence rule, and makes a rule of them (RFC 5545, section 3.3.10).
#![tactic(auto)]

mod lists;
mod numbers;
mod parts;
mod rule;
mod rule_parts;
mod words;

pub use lists::have_number_form;
pub use numbers::number_within;
pub use parts::{is_present, no_parts, parts_of, put_part_value, without_last_semicolon};
pub use rule::{end_of, rule_of, rule_with, takes_start};
pub use rule_parts::{NumberBounds, PartName, RuleParts};
pub use words::part_named;
