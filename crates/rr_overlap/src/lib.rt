//! Whether two series with durations ever run at the same time, for all years to come.
#![tactic(auto)]

mod begun;
mod clash;
mod days;
mod laws;
mod pairs;

pub use clash::{Clash, clear};
pub use laws::clash_is_one;
