//! Titles of events as a terminal takes them: visible characters as they stand, and each other byte escaped.
#![tactic(auto)]

mod laws;
mod title;

pub use laws::titles_are_safe;
pub use title::{push_escaped, push_title};
