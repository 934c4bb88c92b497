//! Whether the rules of a series fit its start, and how long its cycle is.
#![tactic(auto)]

mod cycle;
mod refusals;
mod soundness;

pub use cycle::{admit, chosen_repeats};
pub use refusals::end_refusal;
pub use soundness::{Checked, check};
