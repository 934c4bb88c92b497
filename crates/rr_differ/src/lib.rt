//! The first occurrences that exactly one of two sets has, each with its side, however long the two take to repeat together.
#![tactic(auto)]

mod apart;
mod difference;
mod differences;
mod further;
mod next;
mod one_kind;

pub use difference::Difference;
pub use differences::first_differences;
pub use further::{Further, MOST_FURTHER, further_differences};
