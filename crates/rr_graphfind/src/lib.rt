//! The search for a pattern of Microsoft Graph that has a set of occurrences (recurrencePattern, recurrenceRange).
//!
//! A pattern is its own place in the order of patterns. `refusal` looks at one: it has the set, or the answer is a group of
//! patterns, this one among them, none of which has it. `pattern_after` gives the first pattern after a group.
//! `first_pattern` is the one loop over both.
#![tactic(auto)]

mod agreement;
mod next;
mod refusal;
mod search;

pub use search::graph_of;
