//! The walks of one rule: of whole days, and of units shorter than a day.
#![tactic(auto)]

mod chosen;
mod day_rule;
mod fine_rule;
mod offsets;
mod position_days;
mod rule_lazy;
mod rule_walk;
mod set_positions;

pub use chosen::{
    Chosen, DayLazy, HourLazy, MinuteLazy, MonthLazy, SecondLazy, WeekLazy, YearLazy,
};
pub use day_rule::DayRule;
pub use fine_rule::FineRule;
pub use rule_lazy::RuleLazy;
pub use rule_walk::RuleWalk;
