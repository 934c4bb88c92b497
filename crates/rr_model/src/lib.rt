//! The data that several crates speak of, and in `specs/` the definitions that contracts cite. `VRuleParts`, which rr_vcal
//! alone uses, stands here because these definitions speak of it.
#![tactic(auto)]

mod bytes;
mod calendar_laws;
mod graph;
mod item;
mod kind;
mod lang;
mod laws;
mod limits;
mod line;
mod lists;
mod moment;
mod pass;
mod question;
mod refusal;
mod rule;
mod rule_laws;
mod sketch;
mod stamp;
mod used;
mod vcal;
mod verdict;

pub use bytes::Bytes;
pub use calendar_laws::{
    calendar_repeats, dates_and_days_are_inverse, last_week_is_greatest, years_are_tested,
};
pub use graph::{Form, GraphEvent, Pattern, Range, RangeEnd, Repeat};
pub use item::Item;
pub use kind::Kind;
pub use lang::Lang;
pub use laws::{
    candidates_are_days_and_times, least_factor_is_one, least_period_is_one, least_start_is_one,
    settled_day_is_one,
};
pub use limits::{
    FIRST_DAY, MAX_CYCLE_DAYS, MAX_DATES, MAX_DAY, MAX_INPUT, MAX_RULES, MAX_SECONDS, MAX_SPAN_DAYS,
};
pub use line::{Line, LineList};
pub use lists::{Dates, DayItems, DayShapes, Items, Numbers, Rules, Seconds, VRules};
pub use moment::{SECONDS_OF_DAY, day_part, moment_at, second_part};
pub use pass::FirstPass;
pub use question::Question;
pub use refusal::{Fault, Member, NoMemory, Refusal};
pub use rule::{DayItem, End, Freq, Rule, Series};
pub use rule_laws::{first_refusal_is_one, members_are_tested};
pub use sketch::{DayShape, Sketch};
pub use stamp::Stamp;
pub use used::{LineKind, LineName, Scan, Used, UsedLine};
pub use vcal::{FamilyKind, VRule, VRuleParts, VSeries};
pub use verdict::{Side, Verdict};
