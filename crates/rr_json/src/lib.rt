//! A report of two calendars as one JSON object.
#![tactic(auto)]

mod event;
mod events;
mod files;
mod laws;
mod print;
mod said;
#[cfg(test)]
mod tests;
mod text;

pub use laws::{refusal_is_read, report_is_read};
pub use print::{print_json, print_json_refusal};
