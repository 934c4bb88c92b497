// A day, taken apart as the date parts of a rule ask.
ghost use Rattle.std.specs.Prelude.{◌≡◌, ◌<◌, pos, ◌+ℤ◌};
ghost use Rattle.rr_model.specs.Calendar as calendar;
ghost use Rattle.rr_model.specs.Calendar.{IsDayWithin, month_of, weekday_of, year_of};

use crate::date::date_of;
use crate::length::{day_of_year, days_in_month, days_in_year};
use crate::week::weekday;

/// A day, and what the date parts of a rule ask of it (RFC 5545, section 3.3.10).
#[derive(Clone, Copy)]
pub struct Day {
    /// Its number: days since 1970-01-01.
    pub number: i64,
    /// Its year; the year before 1 is 0.
    pub year: i64,
    /// Its month, from 1 to 12.
    pub month: u8,
    /// Its number in its month, from 1.
    pub day_of_month: u8,
    /// How many days its month has, from 28 to 31.
    pub days_in_month: u8,
    /// Its number in its year, from 1.
    pub day_of_year: u16,
    /// How many days its year has, 365 or 366.
    pub days_in_year: u16,
    /// Its weekday, from 0 for Monday to 6 for Sunday.
    pub weekday: u8,
    ghost near: { IsDayWithin 1000 number },
    ghost of_year: { year ≡ year_of number },
    ghost of_month: { month ≡ month_of number },
    ghost of_day_of_month: { day_of_month ≡ calendar.day_of_month number },
    ghost of_days_in_month: { days_in_month
        ≡ calendar.days_in_month (year_of number) (month_of number) },
    ghost of_day_of_year: { day_of_year ≡ calendar.day_of_year number },
    ghost of_days_in_year: { days_in_year ≡ calendar.days_in_year (year_of number) },
    ghost of_weekday: { weekday ≡ weekday_of number },
}

impl Day {
    /// The day of this number, which counts days since 1970-01-01.
    pub fn new(number: i64) -> Self
        requires near { IsDayWithin 1000 number }
        ensures { result.number ≡ number }
    {
        let date = date_of(number);
        Day {
            number,
            year: date.year,
            month: date.month,
            day_of_month: date.day,
            days_in_month: days_in_month(date.year, date.month),
            day_of_year: day_of_year(date),
            days_in_year: days_in_year(date.year),
            weekday: weekday(number),
        }
    }

    /// The day after this one. No date is computed.
    pub fn next(&self) -> Self
        requires near { IsDayWithin 1000 (self.now.number +ℤ pos 1) }
        ensures { result.number ≡ self.now.number +ℤ pos 1 }
    {
        if self.day_of_month < self.days_in_month {
            self.next_in_month()
        } else if self.month < 12 {
            self.first_of_next_month()
        } else {
            self.first_of_next_year()
        }
    }

    // The day after this one, in the same month.
    fn next_in_month(&self) -> Self
        requires near { IsDayWithin 1000 (self.now.number +ℤ pos 1) }
        requires inside { self.now.day_of_month < self.now.days_in_month }
        ensures { result.number ≡ self.now.number +ℤ pos 1 }
    {
        Day {
            number: self.number + 1,
            year: self.year,
            month: self.month,
            day_of_month: self.day_of_month + 1,
            days_in_month: self.days_in_month,
            day_of_year: self.day_of_year + 1,
            days_in_year: self.days_in_year,
            weekday: self.next_weekday(),
        }
    }

    // The first day of the next month, after the last day of one that is not December.
    fn first_of_next_month(&self) -> Self
        requires near { IsDayWithin 1000 (self.now.number +ℤ pos 1) }
        requires last { self.now.day_of_month ≡ self.now.days_in_month }
        requires inside { self.now.month < 12 }
        ensures { result.number ≡ self.now.number +ℤ pos 1 }
    {
        let month = self.month + 1;
        Day {
            number: self.number + 1,
            year: self.year,
            month,
            day_of_month: 1,
            days_in_month: days_in_month(self.year, month),
            day_of_year: self.day_of_year + 1,
            days_in_year: self.days_in_year,
            weekday: self.next_weekday(),
        }
    }

    // 1 January of the next year, after 31 December.
    fn first_of_next_year(&self) -> Self
        requires near { IsDayWithin 1000 (self.now.number +ℤ pos 1) }
        requires last_day { self.now.day_of_month ≡ self.now.days_in_month }
        requires last_month { self.now.month ≡ 12 }
        ensures { result.number ≡ self.now.number +ℤ pos 1 }
    {
        let year = self.year + 1;
        Day {
            number: self.number + 1,
            year,
            month: 1,
            day_of_month: 1,
            days_in_month: 31,
            day_of_year: 1,
            days_in_year: days_in_year(year),
            weekday: self.next_weekday(),
        }
    }

    // The weekday of the day after this one.
    fn next_weekday(&self) -> u8
        ensures { result ≡ weekday_of (self.now.number +ℤ pos 1) }
    {
        if self.weekday < 6 {
            self.weekday + 1
        } else {
            0
        }
    }
}
