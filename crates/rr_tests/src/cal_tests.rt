// Days, weeks and years of known dates.
ghost use Rattle.std.specs.Prelude.{IfSome};
ghost use Rattle.rr_model.specs.Calendar.{IsDayWithin};

use crate::rows::{printed, rows_hold};
use rr_cal::*;
use rr_model::MAX_DAY;
use std::alloc::Global;

// Days, their dates, and whether these dates are valid and give the days again.
const DATES: &str = "\
-3000000000000|(-8213719051, 1, 13, true)
-719162|(1, 1, 1, true)
0|(1970, 1, 1, true)
11016|(2000, 2, 29, true)
47540|(2100, 2, 28, true)
2932896|(9999, 12, 31, true)
3000000000000|(8213722990, 12, 19, true)
";

// The last or first day of a year, its weekday, and the year, the number and the year's last number of its week if weeks begin on
// Monday and on Sunday.
const WEEKS: &str = "\
10226|(2, (1998, 1, 53), (1997, 53, 53))
12418|(3, (2004, 1, 53), (2003, 53, 53))
12784|(5, (2004, 53, 53), (2004, 52, 52))
14609|(3, (2009, 53, 53), (2009, 52, 52))
14974|(4, (2010, 52, 52), (2010, 52, 52))
18262|(2, (2020, 1, 53), (2020, 1, 53))
18628|(4, (2020, 53, 53), (2020, 53, 53))
";

// The last day of a year, 28 and 29 February, and the days after them with their dates, the days of the month, the day and the days of
// the year, and the weekday.
const NEXT_DAYS: &str = "\
19722|(19723, (2024, 1, 1), 31, 1, 366, 0)
19781|(19782, (2024, 2, 29), 29, 60, 366, 3)
19782|(19783, (2024, 3, 1), 31, 61, 366, 4)
";

// The day that a word states, within those that the calls take.
fn near_day(word: &str) -> Option<i64>
    ensures { IfSome result (IsDayWithin 0) }
{
    let day = word.parse::<i64>().ok()?;
    if -MAX_DAY <= day && day <= MAX_DAY {
        Some(day)
    } else {
        None
    }
}

fn date_said(alloc: Global, given: &str) -> Option<String> {
    let day = near_day(given)?;
    let date = date_of(day);
    let is_its_date = valid(date.year, date.month, date.day) && day_of(date) == day;
    printed(alloc, &(date.year, date.month, date.day, is_its_date))
}

fn weeks_said(alloc: Global, given: &str) -> Option<String> {
    let day = near_day(given)?;
    let a = week_of(day, 0);
    let b = week_of(day, 6);
    let weeks = (
        weekday(day),
        (a.year, a.number, a.last),
        (b.year, b.number, b.last),
    );
    printed(alloc, &weeks)
}

fn next_said(alloc: Global, given: &str) -> Option<String> {
    let day = Day::new(near_day(given)?).next();
    let parts = (
        day.number,
        (day.year, day.month, day.day_of_month),
        day.days_in_month,
        day.day_of_year,
        day.days_in_year,
        day.weekday,
    );
    printed(alloc, &parts)
}

#[test]
fn days_of_tables(rt: HostRuntime) {
    rows_hold(&rt, rt.alloc(), date_said, DATES);
    rows_hold(&rt, rt.alloc(), weeks_said, WEEKS);
    rows_hold(&rt, rt.alloc(), next_said, NEXT_DAYS);
}

#[test]
fn dates_and_kinds_of_years(rt: HostRuntime) {
    assert!(rt;
        !valid(1900, 2, 29) && !valid(2023, 13, 1) && !valid(2023, 4, 31) && !valid(2023, 1, 0)
    );
    let kinds = [
        year_kind(2023),
        year_kind(2024),
        year_kind(2000),
        year_kind(1900),
        year_kind(-400),
    ];
    assert_eq!(rt; kinds, [6, 7, 12, 0, 12]);
}
