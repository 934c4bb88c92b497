//! How long occurrences are: nominal days and exact seconds, read, printed and compared.
#![tactic(auto)]

mod duration;
mod event;
mod laws;
mod length;
mod lengths;
mod order;
mod other;
mod print;
mod span;
mod turn;
mod walk;

pub use duration::duration_of;
pub use event::event_length;
pub use laws::first_other_is_one;
pub use length::Length;
pub use lengths::{Dated, KeyLengths};
pub use other::{OtherLength, first_other_length};
pub use print::push_length;
pub use span::span_between;
