//! Lazy iterators over the members of a rule, and over the occurrences of a series.
#![tactic(auto)]

mod alone_lazy;
mod any_lazy;
mod counted;
mod counts;
mod dates_and_rules;
mod ended_lazy;
mod kept_lazy;
mod last_day;
mod laws;
mod nth;
mod rules_of_series;
mod settled;
mod upto_rule;

pub use alone_lazy::AloneLazy;
pub use any_lazy::{AnyLazy, occurrences};
pub use counts::{Counts, CycleCount};
pub use ended_lazy::EndedLazy;
pub use kept_lazy::KeptLazy;
pub use laws::{series_repeats, tree_stands_for_series};
pub use nth::{NthDay, nth_of};
pub use rr_lazy::{DatesLazy, Except, FirstN, Lazy, Many, OccupiedDay, Union, Upto, Without};
pub use settled::{Settled, ends, settled_day_and_counts};
pub use upto_rule::UptoRule;
