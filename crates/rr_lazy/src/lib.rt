//! Lazy iterators over the occupied days of a set of occurrences.
#![tactic(auto)]

mod ahead;
mod dates_lazy;
mod except;
mod first_n;
mod lazy;
mod many;
mod occupied_day;
mod position;
mod stretch;
mod union;
mod upto;
mod without;

pub use dates_lazy::DatesLazy;
pub use except::Except;
pub use first_n::FirstN;
pub use lazy::Lazy;
pub use many::Many;
pub use occupied_day::OccupiedDay;
pub use union::Union;
pub use upto::Upto;
pub use without::Without;
