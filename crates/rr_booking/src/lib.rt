//! What one candidate and many other series are answered: whether it ever runs at the same time as each of them. No file is read and nothing is
//! written.
#![tactic(auto)]

mod answers;
mod laws;
mod request;
mod tally;
mod words;

pub use answers::answer;
pub use laws::booking_answer_is_one;
pub use request::{Booking, MAX_LENGTH, Other};
pub use words::{USAGE, parse};
