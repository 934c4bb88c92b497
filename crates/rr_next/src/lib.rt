//! The next occurrence of a sequence from a moment on, the first ones from there, and those up to another moment, however far they
//! lie.
#![tactic(auto)]

mod first;
mod next;
mod number;

pub use first::{first_between, first_from, first_numbers};
pub use next::next_at;
pub use number::{Moment, number_from};
