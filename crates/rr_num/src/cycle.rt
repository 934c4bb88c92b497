// After how many days a rule repeats.
ghost use Rattle.std.specs.Prelude.{◌≡◌, ◌*◌, ◌/◌, ◌≤◌};
ghost use Rattle.rr_model.specs.Whole.Divisors.{gcd};
ghost use Rattle.rr_model.specs.Rule.Cycle.{interval_cycle, asks_calendar, parts_cycle, rule_cycle};

use crate::gcd;
use rr_model::{Freq, Rule};

// The days of 400 years, which are whole weeks and 4,800 months.
const DAYS_OF_400_YEARS: u64 = 146_097;

/// The cycle of a rule in days, by its frequency, its interval and which of its parts are present
/// (RFC 5545, section 3.3.10). UNTIL and COUNT do not enter. Every valid rule has an interval of at least 1.
pub fn day_cycle(rule: &Rule) -> u128
    requires { 1 ≤ rule.now.interval }
    ensures value { result ≡ rule_cycle rule.now }
    ensures some { 1 ≤ result }
{
    let units = interval_cycle(rule.freq, rule.interval);
    let parts = parts_cycle(rule);
    (units / gcd(units, parts)) as u128 * parts as u128
}

/// After how many days every `interval`-th unit of a frequency stands again at the same offset of a day (SECONDLY,
/// MINUTELY, HOURLY) or of 400 years (MONTHLY, YEARLY). Every `interval`-th day does after `interval` days, every
/// `interval`-th week after 7 times `interval` days. Every valid rule has an interval of at least 1.
pub fn interval_cycle(freq: Freq, interval: u32) -> u64
    requires { 1 ≤ interval }
    ensures value { result ≡ interval_cycle freq interval }
    ensures some { 1 ≤ result }
    ensures most { result ≤ 146_097 * interval }
{
    match freq {
        Freq::Secondly => turns(interval, 86_400),
        Freq::Minutely => turns(interval, 1_440),
        Freq::Hourly => turns(interval, 24),
        Freq::Daily => interval as u64,
        Freq::Weekly => 7 * interval as u64,
        Freq::Monthly => DAYS_OF_400_YEARS * turns(interval, 4_800),
        Freq::Yearly => DAYS_OF_400_YEARS * turns(interval, 400),
    }
}

// How many rounds of `units` units hold a whole number of intervals.
fn turns(interval: u32, units: u64) -> u64
    requires { 1 ≤ interval }
    ensures value { result ≡ interval / gcd interval units }
    ensures some { 1 ≤ result }
    ensures most { result ≤ interval }
{
    interval as u64 / gcd(interval as u64, units)
}

// After how many days the parts that stand repeat.
fn parts_cycle(rule: &Rule) -> u64
    ensures value { result ≡ parts_cycle rule.now }
    ensures some { 1 ≤ result }
    ensures most { result ≤ 146_097 }
{
    if asks_calendar(rule) {
        return DAYS_OF_400_YEARS;
    }
    if rule.by_day.is_empty() { 1 } else { 7 }
}

// Whether a part stands whose days follow the calendar's years.
fn asks_calendar(rule: &Rule) -> bool
    ensures { result ≡ asks_calendar rule.now }
{
    !rule.by_month.is_empty()
        || !rule.by_month_day.is_empty()
        || !rule.by_year_day.is_empty()
        || !rule.by_week_no.is_empty()
}
