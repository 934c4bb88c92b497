//! Canonical texts read again, and unions, common parts and differences of sets of occurrences.
#![tactic(auto)]

mod combining;
mod dense;
mod expansion;
mod laws;
mod numbers;
mod parts;
mod read;
mod runs;
mod seconds;
mod sets;

pub use combining::{Combined, combine};
pub use laws::{common_is_none_where_disjoint, minus_is_none_where_within};
pub use read::{Described, read_descriptor};
pub use rr_days::Op;
