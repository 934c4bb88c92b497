//! A report of two calendars as one page of HTML that needs nothing from elsewhere.
#![tactic(auto)]

mod class;
mod event;
mod head;
mod month;
mod print;
mod put;
mod said;
mod sections;
#[cfg(test)]
mod tests;
mod words;

pub use class::MOST_EVENTS;
pub use print::{print_page, print_page_refusal};
