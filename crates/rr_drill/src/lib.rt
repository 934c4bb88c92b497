//! Series drawn from a number, and how many verdicts on their pairs are yes.
#![tactic(auto)]

mod asked;
mod counting;
mod drawn_days;
mod draws;
mod drilling;
mod laws;
mod summary;

pub use drilling::drill;
pub use laws::summary_is_one;
pub use summary::Summary;
