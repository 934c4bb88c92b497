// Dates and times in English.
ghost use Rattle.std.specs.Prelude.{◌≡◌, ◌<◌, ◌++◌, OnOk};
ghost use Rattle.rr_model.specs.Calendar.{IsDayWithin};
ghost use Rattle.rr_model.specs.Moment.{day_part};
ghost use Rattle.rr_model.specs.Moment.Years.{IsInYears};
ghost use Rattle.rr_model.specs.Text.Moments.{decimal_of};
ghost use Rattle.rr_wording.specs.Dates.{at_time, date_words, day_and_month, moment_words, month_name, seconds_words, time_words, weekday_name};

use crate::numbers::push;
use rr_cal::date_of;
use rr_model::{Kind, NoMemory, day_part, second_part};
use rr_text::push_unsigned;

/// The English name of a month, from 1 for January to 12 for December.
#[tactic(auto, unfolding(crate::specs::Dates::month_name))]
pub fn month_name(month: u64) -> &'static [u8]
    ensures { result.now ≡ month_name month }
{
    match month {
        1 => b"January",
        2 => b"February",
        3 => b"March",
        4 => b"April",
        5 => b"May",
        6 => b"June",
        7 => b"July",
        8 => b"August",
        9 => b"September",
        10 => b"October",
        11 => b"November",
        _ => b"December",
    }
}

// A weekday, from 0 for Monday.
#[tactic(auto, unfolding(crate::specs::Dates::weekday_name))]
pub(crate) fn weekday_name(weekday: u8) -> &'static [u8]
    ensures { result.now ≡ weekday_name weekday }
{
    match weekday {
        0 => b"Monday",
        1 => b"Tuesday",
        2 => b"Wednesday",
        3 => b"Thursday",
        4 => b"Friday",
        5 => b"Saturday",
        _ => b"Sunday",
    }
}

// Appends a day of a year: `9 January`. `day` is a day number, in days since 1970-01-01.
#[tactic(auto, unfolding(crate::specs::Dates::day_and_month))]
pub(crate) fn push_day_and_month(out: &mut Vec<u8>, day: i64) -> Result<(), NoMemory>
    requires { IsDayWithin 0 day }
    ensures { OnOk result (out.new.items ≡ out.old.items ++ day_and_month day) }
{
    let date = date_of(day);
    push_unsigned(out, u64::from(date.day))?;
    push(out, b" ")?;
    push(out, month_name(u64::from(date.month)))
}

// Appends a date: `9 January 2024`. `day` is a day number, in days since 1970-01-01.
#[tactic(auto, unfolding(crate::specs::Dates::date_words))]
pub(crate) fn push_date(out: &mut Vec<u8>, day: i64) -> Result<(), NoMemory>
    requires { IsDayWithin 0 day }
    ensures { OnOk result (out.new.items ≡ out.old.items ++ date_words day) }
{
    push_day_and_month(out, day)?;
    push(out, b" ")?;
    push_unsigned(out, date_of(day).year.unsigned_abs())
}

// A number below 100 in two digits.
fn two_digits(value: u32) -> [u8; 2]
    requires { value < 100 }
    ensures { result ≡ decimal_of 2 value }
{
    [b'0' + (value / 10) as u8, b'0' + (value % 10) as u8]
}

// Appends the seconds of a time, unless there are none.
#[tactic(auto, unfolding(crate::specs::Dates::seconds_words))]
fn push_seconds(out: &mut Vec<u8>, seconds: u32) -> Result<(), NoMemory>
    requires { seconds < 100 }
    ensures { OnOk result (out.new.items ≡ out.old.items ++ seconds_words seconds) }
{
    if seconds == 0 {
        return Ok(());
    }
    push(out, b":")?;
    push(out, &two_digits(seconds))
}

// Appends a second of the day: `09:30`, or `09:30:15`.
#[tactic(auto, unfolding(crate::specs::Dates::time_words))]
fn push_time(out: &mut Vec<u8>, second: u32) -> Result<(), NoMemory>
    requires { second < 86_400 }
    ensures { OnOk result (out.new.items ≡ out.old.items ++ time_words second) }
{
    push(out, &two_digits(second / 3_600))?;
    push(out, b":")?;
    push(out, &two_digits(second / 60 % 60))?;
    push_seconds(out, second % 60)
}

// The day number of a date or a moment of the years 1 to 9999, in days since 1970-01-01.
pub(crate) fn day_of(kind: Kind, at: i64) -> i64
    requires { IsInYears kind at }
    ensures value { result ≡ day_part kind at }
    ensures near { IsDayWithin 0 result }
{
    day_part(kind, at)
}

// Appends the time of a moment: ` at 09:30`; a date has none.
#[tactic(auto, unfolding(crate::specs::Dates::at_time))]
pub(crate) fn push_at_time(out: &mut Vec<u8>, kind: Kind, at: i64) -> Result<(), NoMemory>
    ensures { OnOk result (out.new.items ≡ out.old.items ++ at_time kind at) }
{
    match kind {
        Kind::Days => Ok(()),
        Kind::Moments => {
            push(out, b" at ")?;
            push_time(out, second_part(Kind::Moments, at))
        }
    }
}

/// Appends a date or a moment, in days or seconds since 1970-01-01 and from the year 1 on: `9 January 2024 at 09:30`.
#[tactic(auto, unfolding(crate::specs::Dates::moment_words))]
pub fn push_moment(out: &mut Vec<u8>, kind: Kind, at: i64) -> Result<(), NoMemory>
    requires { IsDayWithin 0 (day_part kind at) }
    ensures { OnOk result (out.new.items ≡ out.old.items ++ moment_words kind at) }
{
    push_date(out, day_part(kind, at))?;
    push_at_time(out, kind, at)
}

// Appends a date or a moment of the years 1 to 9999: `9 January 2024 at 09:30`.
pub(crate) fn push_moment_in_years(out: &mut Vec<u8>, kind: Kind, at: i64) -> Result<(), NoMemory>
    requires { IsInYears kind at }
    ensures { OnOk result (out.new.items ≡ out.old.items ++ moment_words kind at) }
{
    push_moment(out, kind, at)
}
