//! The calendar: day numbers, dates, weeks and kinds of year, over all years that a call takes.
#![tactic(auto)]

mod date;
mod day;
mod length;
mod units;
mod week;

pub use date::{Date, date_of, day_of, valid};
pub use day::Day;
pub use length::{day_of_year, days_in_month, days_in_year};
pub use units::{days_in_unit, first_day_of_unit, month_number, unit_of_day};
pub use week::{Week, week_index, week_of, weekday, year_kind};
