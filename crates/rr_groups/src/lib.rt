//! The events of two calendars by their keys, and the pairs of those that have a key as often.
#![tactic(auto)]

mod entry;
mod group;
mod keys;
mod laws;
mod pairs;

pub use group::{Group, groups_of};
pub use keys::keys_of;
pub use laws::{pairs_are_apart, pairs_are_within};
pub use pairs::{IndexPair, pairs_of};
