//! A series in English, as a person says it: `every month on the second Tuesday at 09:30, from 9 January 2024`.
#![tactic(auto)]

mod dates;
mod days;
mod end;
mod lists;
mod numbers;
mod part;
mod rule;
mod series;

pub use dates::{month_name, push_moment};
pub use series::push_series;
