// Units of whole days: days, weeks, months and years by their numbers (RFC 5545, section 3.3.10, FREQ and WKST).
ghost use Rattle.std.specs.Prelude.{◌≡◌, ◌≤◌, ◌+◌, ◌-ℤ◌, ◌+ℤ◌, IsTrue, pos, ℕ};
ghost use Rattle.rr_model.specs.Calendar.{IsDayWithin};
ghost use Rattle.rr_model.specs.Calendar.Week.{fourth_day};
ghost use Rattle.rr_model.specs.Moment.Units.{first_day_of_month, is_whole_days, month_number, unit_number, unit_start};
ghost use Rattle.rr_model.specs.Whole.{floor_mod};
ghost use Rattle.rr_model.specs.declared.kind.Kind.TheVariants.{Days};

use crate::date::{Date, day_of};
use crate::day::Day;
use crate::length::{days_in_month, days_in_year};
use crate::week::week_index;
use rr_model::Freq;

/// The number of the month in which a day lies: 12 times its year, plus the months before it there.
pub fn month_number(day: &Day) -> i64
    ensures { result ≡ month_number day.now.number }
{
    12 * day.year + i64::from(day.month) - 1
}

/// The number of the unit of a frequency, DAILY or coarser, in which a day lies: the day's own number, or that of its
/// week, its month or its year; weeks begin on the weekday `week_start`, from 0 for Monday.
pub fn unit_of_day(freq: Freq, week_start: u8, day: &Day) -> i64
    requires { IsTrue (is_whole_days freq) }
    ensures { result ≡ unit_number freq week_start Days day.now.number }
{
    match freq {
        Freq::Weekly => week_index(day.number, week_start),
        Freq::Monthly => month_number(day),
        Freq::Yearly => day.year,
        _ => day.number,
    }
}

/// The first day of the unit of this number, in days since 1970-01-01.
pub fn first_day_of_unit(freq: Freq, week_start: u8, unit: i64) -> i64
    requires freq { IsTrue (is_whole_days freq) }
    requires near { IsDayWithin 1000 (unit_start freq week_start Days unit) }
    ensures { result ≡ unit_start freq week_start Days unit }
{
    match freq {
        Freq::Weekly => first_day_of_week(unit, week_start),
        Freq::Monthly => first_day_of_month(unit),
        Freq::Yearly => day_of(Date {
            year: unit,
            month: 1,
            day: 1,
        }),
        _ => unit,
    }
}

// The first day of a week.
fn first_day_of_week(week: i64, week_start: u8) -> i64
    requires near { IsDayWithin 1000 (fourth_day week week_start -ℤ pos 3) }
    ensures { result ≡ fourth_day week week_start -ℤ pos 3 }
{
    7 * week + i64::from(week_start) - 3
}

// The first day of a month.
fn first_day_of_month(month: i64) -> i64
    requires near { IsDayWithin 1000 (first_day_of_month month) }
    ensures { result ≡ first_day_of_month month }
{
    day_of(Date {
        year: month.div_euclid(12),
        month: month_of_year(month),
        day: 1,
    })
}

// The number in its year, from 1, of the month of this number.
fn month_of_year(month: i64) -> u8
    ensures { result ≡ floor_mod month 12 + 1 }
{
    month.rem_euclid(12) as u8 + 1
}

/// How many days the unit of this number has: 1, 7, 28 to 31, or 365 or 366.
pub fn days_in_unit(freq: Freq, unit: i64) -> u16
    requires { IsTrue (is_whole_days freq) }
    ensures next { (w : ℕ)
        → unit_start freq w Days (unit +ℤ pos 1) ≡ unit_start freq w Days unit +ℤ pos result }
    ensures few { result ≤ 366 }
{
    match freq {
        Freq::Weekly => 7,
        Freq::Monthly => u16::from(days_in_month(unit.div_euclid(12), month_of_year(unit))),
        Freq::Yearly => days_in_year(unit),
        _ => 1,
    }
}
