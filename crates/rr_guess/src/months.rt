// The months of a row of days.
ghost use Rattle.std.specs.Prelude.{◌<◌, ◌≤◌, ◌≤ℤ◌, pos, neg_ℤ};

use rr_cal::Day;
use rr_model::NoMemory;
use rr_pattern::is_day_in;
use std::alloc::Global;

/// A month of a row of days.
#[derive(Clone, Copy)]
pub(crate) struct Month {
    /// The index of its first day in the row.
    pub first: u32,
    /// How many days it has.
    pub days: u8,
    /// The weekday of its first day, from 0 for Monday.
    pub weekday: u8,
}

/// The months in which `days` days lie, from a day on, which is the first of a month and in days since 1970-01-01.
pub(crate) fn months_of(alloc: Global, first: i64, days: u32) -> Result<Vec<Month>, NoMemory>
    requires low { neg_ℤ (pos 2_000_000_000) ≤ℤ first }
    requires high { first ≤ℤ pos 2_000_000_000 }
    requires few { days ≤ 100_000_000 }
{
    let mut months = Vec::new(alloc);
    let mut at = 0;
    for _ in 0..=days / 28 {
        if at >= days {
            return Ok(months);
        }
        let day = Day::new(first + i64::from(at));
        months.push(Month {
            first: at,
            days: day.days_in_month,
            weekday: day.weekday,
        })?;
        at += u32::from(day.days_in_month);
    }
    Ok(months)
}

/// The place of the month in which the day of an index lies.
pub(crate) fn month_at(months: &[Month], index: u32) -> Option<u32> {
    for place in index / 31..=index / 28 {
        let month = months.get(place as usize)?;
        if index < month.first.saturating_add(u32::from(month.days)) {
            return Some(place);
        }
    }
    None
}

/// Which day of a month a pattern has.
#[derive(Clone, Copy)]
pub(crate) enum Pick {
    /// The day of this number, or the last of a shorter month.
    Number(u8),
    /// The first to fourth, or with -1 the last, of these weekdays.
    Indexed {
        /// Which of them: 1 to 4 from the front, or -1 for the last.
        index: i8,
        /// The weekdays: the sum of 1 for Sunday, 2 for Monday, up to 64 for Saturday.
        weekdays: u8,
    },
}

impl Pick {
    /// How many days of the month lie before that day.
    pub(crate) fn days_before(&self, month: &Month) -> Option<u8> {
        match *self {
            Pick::Number(number) => Some(number.min(month.days).saturating_sub(1)),
            Pick::Indexed { index, weekdays } if index < 0 => days_before_last(weekdays, month),
            Pick::Indexed { index, weekdays } => days_before_indexed(index, weekdays, month),
        }
    }
}

// How many days of the month lie before the one of an index, from 1, among those of some weekdays.
fn days_before_indexed(index: i8, weekdays: u8, month: &Month) -> Option<u8> {
    let mut left = index;
    for before in 0..month.days {
        if has_weekday_after(month.weekday, before, weekdays) {
            if left <= 1 {
                return Some(before);
            }
            left -= 1;
        }
    }
    None
}

// How many days of the month lie before the last of some weekdays.
fn days_before_last(weekdays: u8, month: &Month) -> Option<u8> {
    for after in 0..month.days {
        let before = month.days - after - 1;
        if has_weekday_after(month.weekday, before, weekdays) {
            return Some(before);
        }
    }
    None
}

/// Whether the day that lies `days` days after one with a weekday has one of some weekdays.
pub(crate) fn has_weekday_after(weekday: u8, days: u8, weekdays: u8) -> bool {
    is_day_in(weekdays, weekday_after(weekday, days))
}

/// The weekday of the day that lies `days` days after one with a weekday.
pub(crate) fn weekday_after(weekday: u8, days: u8) -> u8
    ensures { result < 7 }
{
    ((u16::from(weekday) + u16::from(days)) % 7) as u8
}

/// The number that stands for a weekday in a sum of weekdays.
pub(crate) fn weekday_bit(weekday: u8) -> u8 {
    match weekday {
        0 => 2,
        1 => 4,
        2 => 8,
        3 => 16,
        4 => 32,
        5 => 64,
        _ => 1,
    }
}
