//! The candidates of one unit of a rule (RFC 5545, section 3.3.10), and what finds them quickly: masks of years and the keys under
//! which they are kept, the units of a frequency, the times of a day.
#![tactic(auto)]

mod allowed_days;
mod day_times;
mod finer;
mod finer_units;
mod laws;
mod left_out;
mod spread;
mod time_parts;
mod unit_days;
mod unit_times;
mod year_masks;

pub use allowed_days::AllowedDays;
pub use day_times::times;
pub use finer::{fitting_seconds_by, seconds_on};
pub use finer_units::{first_fit, first_unit, unit_of, units_of_day};
pub use laws::equal_keys_have_equal_masks;
pub use unit_days::days;
pub use unit_times::UnitTimes;
pub use year_masks::{YEAR_KEYS, YearMask, mask_key, new_year, year_mask};
