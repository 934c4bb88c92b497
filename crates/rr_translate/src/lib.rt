//! A series in another language of recurrences, or its first single rule.
#![tactic(auto)]

mod calendar;
mod graph;
mod one_end;
mod single;
mod targets;

pub use graph::graph_of_days;
pub use targets::{infer, translate};
