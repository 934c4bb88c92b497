// How long months and years are, and what number a day has in its year.
ghost use Rattle.std.specs.Prelude.{◌≡◌, ◌≤◌};
ghost use Rattle.rr_model.specs.Calendar.{day_number, day_of_year, days_in_month, days_in_year, IsDate};

use crate::date::{CYCLE_YEARS, Date, in_first_cycle};
use jiff::civil;

/// The days of a month. Any year.
pub fn days_in_month(year: i64, month: u8) -> u8
    requires low { 1 ≤ month }
    requires high { month ≤ 12 }
    ensures { result ≡ days_in_month year month }
{
    let first = civil::date(year.rem_euclid(CYCLE_YEARS) as i16, month as i8, 1);
    first.days_in_month() as u8
}

/// The days of a year, 365 or 366. Any year.
pub fn days_in_year(year: i64) -> u16
    ensures { result ≡ days_in_year year }
{
    let new_year = civil::date(year.rem_euclid(CYCLE_YEARS) as i16, 1, 1);
    if new_year.in_leap_year() { 366 } else { 365 }
}

/// The number of a date in its year, from 1. Any year.
pub fn day_of_year(date: Date) -> u16
    requires { IsDate date.year date.month date.day }
    ensures { result ≡ day_of_year (day_number date.year date.month date.day) }
{
    in_first_cycle(date).day_of_year() as u16
}
