//! Whether two series have the same moments of UTC in their zones, for ever.
#![tactic(auto)]

mod about;
mod begin;
mod day;
mod end;
mod equal;
mod merge;
mod only;
mod seen;
mod walk;
mod zones;

pub use day::moments_on;
pub use equal::equal_moments;
pub use only::Only;
pub use walk::first_difference;
