// The weekdays of weekly patterns that have a day.
use crate::candidate::days_into_week;
use crate::months::{has_weekday_after, weekday_after, weekday_bit};

/// How many days stand in one week with a day, whatever the first weekday: six before it and six after it.
pub(crate) const MANY_BESIDE: usize = 13;

/// The sum of the weekdays of the week of a day that are marked. The marks are those of 13 days, from six before the
/// day to six after it.
pub(crate) fn weekdays_marked(marks: &[bool; MANY_BESIDE], first_day: u8, weekday: u8) -> u8 {
    let into = days_into_week(first_day, weekday);
    let mut weekdays = 0;
    for passed in 0..7u8 {
        let place = usize::from(passed) + 6 - usize::from(into.min(6));
        if matches!(marks.get(place), Some(true)) {
            weekdays |= weekday_bit(weekday_after(first_day, passed));
        }
    }
    weekdays
}

/// How many weekdays a sum has.
pub(crate) fn many_weekdays(weekdays: u8) -> u8 {
    let mut many: u8 = 0;
    for weekday in 0..7 {
        if has_weekday_after(weekday, 0, weekdays) {
            many = many.saturating_add(1);
        }
    }
    many
}
