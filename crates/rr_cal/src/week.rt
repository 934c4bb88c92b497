// Weekdays, weeks and kinds of year.
ghost use Rattle.std.specs.Prelude.{◌≡◌, ◌+◌, ◌/◌, ◌<◌, ◌≤◌};
ghost use Rattle.rr_model.specs.Calendar.{day_number, days_into_year, IsDayWithin, kind_of_year, weekday_of, year_of};
ghost use Rattle.rr_model.specs.Calendar.Week.{fourth_day, last_week, week_index, week_number, week_year};

use crate::date::{CYCLE_YEARS, Date, date_of_near, day_of_near};
use jiff::civil;

/// A week: the year that it belongs to, its number there, and the number of that year's last week.
#[derive(Clone, Copy, Debug, PartialEq, Eq)]
pub struct Week {
    /// The year in which at least four days of the week lie.
    pub year: i64,
    /// Its number in that year, from 1.
    pub number: u8,
    /// The number of that year's last week, 52 or 53.
    pub last: u8,
}

/// The weekday of a day, from 0 for Monday to 6 for Sunday.
pub fn weekday(day: i64) -> u8
    requires near { IsDayWithin 1000 day }
    ensures value { result ≡ weekday_of day }
    ensures below { result < 7 }
{
    (day + 3).rem_euclid(7) as u8
}

/// The number of the week in which a day lies, over all weeks; they begin on the weekday `week_start`, from 0 for Monday.
pub fn week_index(day: i64, week_start: u8) -> i64
    requires near { IsDayWithin 1000 day }
    ensures { result ≡ week_index day week_start }
{
    (day + 3 - i64::from(week_start)).div_euclid(7)
}

/// The week in which a day lies, if weeks begin on the weekday `week_start`, from 0 for Monday to 6 for Sunday.
///
/// Numbers are those of BYWEEKNO and WKST (RFC 5545, section 3.3.10), from Monday those of ISO 8601.
pub fn week_of(day: i64, week_start: u8) -> Week
    requires near { IsDayWithin 1000 day }
    ensures year { result.year ≡ week_year (week_index day week_start) week_start }
    ensures number { result.number ≡ week_number (week_index day week_start) week_start }
    ensures last { result.last ≡ last_week result.year week_start }
    ensures range { (1 ≤ result.number) × (result.number ≤ result.last) × (result.last ≤ 53) }
{
    let fourth = fourth_of_week(day, week_start);
    let year = date_of_near(fourth).year;
    let first = day_of_near(Date {
        year,
        month: 1,
        day: 1,
    });
    let december_28 = day_of_near(Date {
        year,
        month: 12,
        day: 28,
    });
    let last = fourth_of_week(december_28, week_start);
    Week {
        year,
        number: number_of_week(fourth, first),
        last: number_of_week(last, first),
    }
}

// The fourth day of the week in which a day lies.
fn fourth_of_week(day: i64, week_start: u8) -> i64
    requires near { IsDayWithin 3000 day }
    ensures { result ≡ fourth_day (week_index day week_start) week_start }
{
    let fourth = day + 3;
    let start = i64::from(week_start);
    fourth - (fourth - start).rem_euclid(7)
}

// The number of the week that has this fourth day, if its year has this first day.
fn number_of_week(fourth: i64, first: i64) -> u8
    requires near { IsDayWithin 2000 fourth }
    requires first { first ≡ day_number (year_of fourth) 1 1 }
    ensures { result ≡ days_into_year fourth / 7 + 1 }
{
    (fourth.abs_diff(first) / 7 + 1) as u8
}

/// The kind of a year, of which there are 14: the weekday of 1 January, plus 7 in a leap year. Any year.
pub fn year_kind(year: i64) -> u8
    ensures value { result ≡ kind_of_year year }
    ensures below { result < 14 }
{
    let new_year = civil::date(year.rem_euclid(CYCLE_YEARS) as i16, 1, 1);
    let weekday = new_year.weekday().to_monday_zero_offset() as u8;
    if new_year.in_leap_year() {
        weekday + 7
    } else {
        weekday
    }
}
