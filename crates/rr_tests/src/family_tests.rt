// Each kind of rule once, on known days of 2024.
use crate::rows::{printed, rows_hold};
use rr_cal::Day;
use rr_family::*;
use rr_model::{FamilyKind, Freq, Item};
use std::alloc::Global;

// Monday, 1 January 2024, in days since 1970-01-01.
const FIRST: i64 = 19_723;

// Wednesday, 31 January 2024, in days since 1970-01-01.
const LAST_OF_JANUARY: i64 = 19_753;

// Kinds with places, and the items there.
const ITEMS: &str = "\
D 0|Every
W 6|Weekday(6)
MD 30|MonthDay(31)
MD 31|MonthDay(-1)
MP 36|Place { place: -1, weekday: 1 }
YM 11|Month(12)
YD 365|YearDay(366)
";

// The item of a kind and a place.
pub(crate) fn item_of(given: &str) -> Option<Item> {
    let (word, place) = given.split_once(' ')?;
    let place = place.parse::<u16>().ok()?;
    let kind = match word {
        "D" => FamilyKind::D,
        "W" => FamilyKind::W,
        "MD" => FamilyKind::MD,
        "MP" => FamilyKind::MP,
        "YM" => FamilyKind::YM,
        "YD" => FamilyKind::YD,
        _ => return None,
    };
    if place < many_items(kind) {
        Some(item_at(kind, place))
    } else {
        None
    }
}

fn item_said(alloc: Global, given: &str) -> Option<String> {
    printed(alloc, &item_of(given)?)
}

#[test]
fn items_in_order(rt: HostRuntime) {
    rows_hold(&rt, rt.alloc(), item_said, ITEMS);
}

#[test]
fn the_days_of_each_kind(rt: HostRuntime) {
    let days = DayFamily::new(FIRST, 30).gives(0, LAST_OF_JANUARY);
    let weeks = WeekFamily::new(FIRST, 2).gives(2, LAST_OF_JANUARY);
    let month_days = MonthDayFamily::new(FIRST, 1).gives(31, LAST_OF_JANUARY);
    let places = MonthPlaceFamily::new(FIRST, 1).gives(37, LAST_OF_JANUARY);
    let months = YearMonthFamily::new(LAST_OF_JANUARY, 1).gives(0, LAST_OF_JANUARY);
    let year_days = YearDayFamily::new(FIRST, 1).gives(30, LAST_OF_JANUARY);
    assert_eq!(rt;
        [days, weeks, month_days, places, months, year_days],
        [true; 6]
    );
}

#[test]
fn the_sort_of_a_day(rt: HostRuntime) {
    let first = Day::new(FIRST);
    let last = Day::new(LAST_OF_JANUARY);
    assert!(rt; sort_of_day(FamilyKind::MD, 1, &first, &last) == Some(123));
    assert!(rt; has_sort(FamilyKind::MD, 123, 31) && many_sorts(FamilyKind::MP) == 175);
}

#[test]
fn intervals_that_divisors_leave_out(rt: HostRuntime) {
    let divisors = Divisors {
        days: 14,
        weeks: [2; 7],
        months: 1,
        years: 0,
    };
    let end = WindowEnd::Last {
        day: LAST_OF_JANUARY,
        many: 3,
    };
    let left_out = [
        divisors.leave_out(end, Freq::Weekly, 0, 2),
        divisors.leave_out(end, Freq::Weekly, 0, 4),
        divisors.leave_out(end, Freq::Monthly, 0, 2),
        divisors.leave_out(end, Freq::Yearly, 0, 2),
        divisors.leave_out(end, Freq::Yearly, 0, 1),
    ];
    assert_eq!(rt; left_out, [false, true, true, true, false]);
}
