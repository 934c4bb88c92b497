//! Plans for a set of occurrences: several events of Microsoft Graph, some of their occurrences cancelled, and single occurrences,
//! which together have each occurrence of the set once (patternedRecurrence, cancelledOccurrences).
#![tactic(auto)]

mod few;
mod laws;
mod part;

pub use few::few_moments;
pub use laws::{agreement_is_settled, each_part_is_needed};
pub use part::Part;
