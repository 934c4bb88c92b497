// The date parts of a rule, as tests of one day (RFC 5545, section 3.3.10).
ghost use Rattle.std.specs.Prelude.{◌≡◌};
ghost use Rattle.rr_model.specs.Rule.Candidate.{by_day_holds, by_month_day_holds, by_month_holds, by_week_no_holds, by_year_day_holds, counts_in_year, date_parts_hold};
ghost use Rattle.rr_model.specs.Rule.Filled.{filled_rule};
ghost use Rattle.rr_model.specs.declared.kind.Kind.TheVariants.{Days};

use crate::filled::{wants_day, wants_month, wants_month_day};
use crate::numbers::{allows_filled, allows_place_filled, allows_signed};
use crate::ordinals::lists_day;
use rr_cal::{Day, week_of};
use rr_model::{Freq, Rule};

/// Whether each date part of the rule, filled from the day of its start, holds of a day (RFC 5545, section 3.3.10).
pub fn date_parts_hold(rule: &Rule, start: &Day, day: &Day) -> bool
    ensures { result ≡ date_parts_hold (filled_rule rule.now Days start.now.number) day.now.number }
{
    by_month_holds(rule, start, day)
        && by_week_no_holds(rule, day)
        && by_year_day_holds(rule, day)
        && by_month_day_holds(rule, start, day)
        && by_day_holds(rule, start, day)
}

// Whether the day lies in a month of BYMONTH.
fn by_month_holds(rule: &Rule, start: &Day, day: &Day) -> bool
    ensures { result ≡ by_month_holds (filled_rule rule.now Days start.now.number) day.now.number }
{
    allows_filled(&rule.by_month, wants_month(rule), start.month, day.month)
}

// Whether the day lies in a week of BYWEEKNO, by the year to which the week belongs.
fn by_week_no_holds(rule: &Rule, day: &Day) -> bool
    ensures { result ≡ by_week_no_holds rule.now day.now.number }
{
    if rule.by_week_no.is_empty() {
        return true;
    }
    let week = week_of(day.number, rule.week_start);
    allows_signed(
        &rule.by_week_no,
        u16::from(week.number),
        u16::from(week.last),
    )
}

// Whether BYYEARDAY lists the day's number in its year.
fn by_year_day_holds(rule: &Rule, day: &Day) -> bool
    ensures { result ≡ by_year_day_holds rule.now day.now.number }
{
    allows_signed(&rule.by_year_day, day.day_of_year, day.days_in_year)
}

// Whether BYMONTHDAY lists the day's number in its month.
fn by_month_day_holds(rule: &Rule, start: &Day, day: &Day) -> bool
    ensures { result ≡ by_month_day_holds
        (filled_rule rule.now Days start.now.number) day.now.number }
{
    allows_place_filled(
        &rule.by_month_day,
        wants_month_day(rule),
        start.day_of_month,
        day.day_of_month,
        day.days_in_month,
    )
}

// Whether BYDAY lists the day's weekday, with its ordinal if that is asked.
fn by_day_holds(rule: &Rule, start: &Day, day: &Day) -> bool
    ensures { result ≡ by_day_holds (filled_rule rule.now Days start.now.number) day.now.number }
{
    if rule.by_day.is_empty() {
        return !wants_day(rule) || start.weekday == day.weekday;
    }
    lists_day(rule.by_day.as_slice(), counts_in_year(rule), day)
}

// Whether ordinals of BYDAY, if it is present, count in the year.
fn counts_in_year(rule: &Rule) -> bool
    ensures { result ≡ counts_in_year rule.now.freq rule.now.by_month }
{
    match rule.freq {
        Freq::Yearly => rule.by_month.is_empty(),
        _ => false,
    }
}
