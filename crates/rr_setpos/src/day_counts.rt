// Counts over the days of a unit of whole days that the date parts allow.
ghost use Rattle.std.specs.Prelude.{◌≡◌, ◌≤◌, ◌≤ℤ◌, ◌+ℤ◌, IsTrue, pos};
ghost use Rattle.rr_model.specs.Calendar.{IsDayWithin};
ghost use Rattle.rr_model.specs.Moment.Units.{is_whole_days};
ghost use Rattle.rr_setpos.specs.Ranks.{days_among, days_before, days_of_unit, first_of_unit, next_of_unit};

use rr_cal::{Day, days_in_unit, first_day_of_unit, unit_of_day};
use rr_model::Rule;
use rr_parts::date_parts_hold;

// How many of `count` days from the first on the date parts allow.
pub(crate) fn days_among(rule: &Rule, start: &Day, first: i64, count: u16) -> u32
    requires first { IsDayWithin 1000 first }
    requires last { IsDayWithin 1000 (first +ℤ pos count) }
    ensures value { result ≡ days_among rule.now start.now.number first count }
    ensures few { result ≤ count }
{
    let mut days = 0;
    for k in 0..count {
        if date_parts_hold(rule, start, &Day::new(first + i64::from(k))) {
            days += 1;
        }
    }
    days
}

// How many days that the date parts allow lie in a day's unit before it.
pub(crate) fn days_before(rule: &Rule, start: &Day, day: &Day) -> u32
    requires freq { IsTrue (is_whole_days rule.now.freq) }
    requires near { IsDayWithin 0 day.now.number }
    ensures value { result ≡ days_before rule.now start.now.number day.now.number }
    ensures few { result ≤ 366 }
{
    let first = first_of_unit(rule, day);
    days_among(rule, start, first, (day.number - first) as u16)
}

// How many days that the date parts allow lie in a day's unit.
pub(crate) fn days_of_unit(rule: &Rule, start: &Day, day: &Day) -> u32
    requires freq { IsTrue (is_whole_days rule.now.freq) }
    requires near { IsDayWithin 0 day.now.number }
    ensures value { result ≡ days_of_unit rule.now start.now.number day.now.number }
    ensures few { result ≤ 366 }
{
    let first = first_of_unit(rule, day);
    days_among(rule, start, first, length_of_unit(rule, day))
}

// The first day of a day's unit.
fn first_of_unit(rule: &Rule, day: &Day) -> i64
    requires freq { IsTrue (is_whole_days rule.now.freq) }
    requires near { IsDayWithin 0 day.now.number }
    ensures value { result ≡ first_of_unit rule.now day.now.number }
    ensures begun { result ≤ℤ day.now.number }
    ensures not_over { day.now.number ≤ℤ (result +ℤ pos 365) }
    ensures near { IsDayWithin 1000 result }
{
    let unit = unit_of_day(rule.freq, rule.week_start, day);
    first_day_of_unit(rule.freq, rule.week_start, unit)
}

// How many days a day's unit has.
fn length_of_unit(rule: &Rule, day: &Day) -> u16
    requires freq { IsTrue (is_whole_days rule.now.freq) }
    requires near { IsDayWithin 0 day.now.number }
    ensures next { next_of_unit rule.now day.now.number
        ≡ first_of_unit rule.now day.now.number +ℤ pos result }
    ensures few { result ≤ 366 }
    ensures near { IsDayWithin 1000 (first_of_unit rule.now day.now.number +ℤ pos result) }
{
    days_in_unit(rule.freq, unit_of_day(rule.freq, rule.week_start, day))
}
