//! The series of a key of a calendar with its moved and cancelled instances as dates, whatever the language.
#![tactic(auto)]

mod date_set;
mod edit;
mod laws;

pub use date_set::DateSet;
pub use edit::{ShiftSets, moved, starts_of};
pub use laws::{edited_has_instances, instances_are_dates, moved_is_valid, starts_occur};
