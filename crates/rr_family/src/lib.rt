//! Kinds of rules of vCalendar 1.0, item by item, and what a window of a set of occurrences tells of them for ever.
#![tactic(auto)]

mod divisors;
mod family;
mod items;
mod laws;
mod months;
mod sorts;
mod weeks;
mod window;
mod years;

pub use divisors::{Divisors, divisors_of};
pub use family::{DayFamily, Family};
pub use items::{item_at, many_items};
pub use laws::{
    agreement_on_cycle_lasts, cycle_is_counterparts, cycle_is_patterns,
    endless_agreement_is_pattern, endless_has_cycle, endless_list_is_rule,
    endless_pattern_has_cycle, endless_rule_has_cycle, finite_agreement_is_pattern,
    finite_list_is_rule, first_pattern_is_one, first_rule_is_one, further_by_sorts, items_repeat,
    kinds_have_sorts, list_items_rise, members_on_days, mixed_has_no_list, no_list_is_lost,
    no_pattern_is_lost, pattern_has_one_second, pattern_repeats, set_of_test, sound_by_sorts,
    sound_lasts, taking_is_sound, taking_loses_no_endless, taking_loses_none, test_of_endless,
    test_of_finite, unsorted_has_no_list,
};
pub use months::{MonthDayFamily, MonthPlaceFamily};
pub use sorts::{has_sort, many_sorts, sort_of_day};
pub use weeks::WeekFamily;
pub use window::{Window, WindowEnd, is_occupied, window_of};
pub use years::{YearDayFamily, YearMonthFamily};
