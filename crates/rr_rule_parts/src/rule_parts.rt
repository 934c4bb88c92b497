// The text of a rule, part by part, before the rule is complete.
ghost use Rattle.std.specs.Prelude.{◌≡◌};
ghost use Rattle.rr_rule_parts.specs.Values.{unsigned_bounds, signed_bounds, second_bounds};

use rr_model::{DayItems, Freq, Numbers, Stamp};

/// The name of a part of a rule (RFC 5545, section 3.3.10).
#[derive(Clone, Copy, Debug, PartialEq, Eq)]
pub enum PartName {
    /// FREQ, how often it repeats.
    Freq,
    /// UNTIL, the moment at which it ends.
    Until,
    /// COUNT, after how many members it ends.
    Count,
    /// INTERVAL, every how many of its units it applies.
    Interval,
    /// WKST, the first weekday of a week.
    WeekStart,
    /// BYSECOND, seconds of the minute.
    BySecond,
    /// BYMINUTE, minutes of the hour.
    ByMinute,
    /// BYHOUR, hours of the day.
    ByHour,
    /// BYDAY, weekdays with or without an ordinal.
    ByDay,
    /// BYMONTHDAY, days of the month.
    ByMonthDay,
    /// BYYEARDAY, days of the year.
    ByYearDay,
    /// BYWEEKNO, weeks of the year.
    ByWeekNo,
    /// BYMONTH, months of the year.
    ByMonth,
    /// BYSETPOS, which of the members of one unit of FREQ.
    BySetPos,
}

/// Which numbers a part takes.
#[derive(Clone, Copy, Debug, PartialEq, Eq)]
pub struct NumberBounds {
    /// Whether a `+` or a `-` may stand before a number.
    pub signed: bool,
    /// The least number, whatever its sign.
    pub least: u16,
    /// The greatest number, whatever its sign.
    pub most: u16,
    /// Whether 60 is a leap second.
    pub has_leap: bool,
}

impl NumberBounds {
    /// Numbers without a sign, from `least` up to `most`.
    pub fn unsigned(least: u16, most: u16) -> Self
        ensures { result ≡ unsigned_bounds least most }
    {
        NumberBounds {
            signed: false,
            least,
            most,
            has_leap: false,
        }
    }

    /// Numbers with or without a sign, from 1 up to `most` whatever their sign.
    pub fn signed(most: u16) -> Self
        ensures { result ≡ signed_bounds most }
    {
        NumberBounds {
            signed: true,
            least: 1,
            most,
            has_leap: false,
        }
    }

    /// Seconds of a minute, 0 to 59; 60 has a refusal of its own, `LeapSecond`.
    pub fn seconds() -> Self
        ensures { result ≡ second_bounds }
    {
        NumberBounds {
            signed: false,
            least: 0,
            most: 59,
            has_leap: true,
        }
    }
}

/// The parts of a rule as far as they are read. A part that is absent is `None`, or an empty list.
#[derive(Drop)]
pub struct RuleParts {
    /// FREQ, the unit in which the rule repeats.
    pub freq: Option<Freq>,
    /// UNTIL, with the `Z` after it.
    pub until: Option<Stamp>,
    /// COUNT, how many members the rule has at most, from 1.
    pub count: Option<u64>,
    /// INTERVAL, every how many units it applies, from 1.
    pub interval: Option<u32>,
    /// WKST, from 0 for Monday.
    pub week_start: Option<u8>,
    /// BYSECOND, seconds of the minute, 0 to 59.
    pub by_second: Numbers,
    /// BYMINUTE, minutes of the hour, 0 to 59.
    pub by_minute: Numbers,
    /// BYHOUR, hours of the day, 0 to 23.
    pub by_hour: Numbers,
    /// BYDAY, weekdays with or without an ordinal.
    pub by_day: DayItems,
    /// BYMONTHDAY, days of the month, 1 to 31 and -31 to -1.
    pub by_month_day: Numbers,
    /// BYYEARDAY, days of the year, 1 to 366 and -366 to -1.
    pub by_year_day: Numbers,
    /// BYWEEKNO, weeks of the year, 1 to 53 and -53 to -1.
    pub by_week_no: Numbers,
    /// BYMONTH, months, 1 to 12.
    pub by_month: Numbers,
    /// BYSETPOS, which of the members of one unit of FREQ, 1 to 366 and -366 to -1.
    pub by_set_pos: Numbers,
}
