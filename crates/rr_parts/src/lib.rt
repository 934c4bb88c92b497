//! What the BY parts of a rule say of one day, of one time and of one unit, once the start has filled those that are
//! absent and wanted (RFC 5545, section 3.3.10).
#![tactic(auto)]

mod dates;
mod filled;
mod moment;
mod numbers;
mod ordinals;
mod times;
mod units;

pub use dates::date_parts_hold;
pub use filled::{wants_hour, wants_minute, wants_month, wants_month_day, wants_second};
pub use moment::Moment;
pub use numbers::{allows, allows_filled, allows_signed, lists_number, number_from_back};
pub use ordinals::is_ordinal_of_day;
pub use times::{Time, time_of, time_parts_hold};
pub use units::{interval_holds, seconds_of_unit, unit_fits, unit_number};
