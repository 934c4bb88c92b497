// Recurrences of Microsoft Graph (recurrencePattern and recurrenceRange).
use crate::Kind;

/// The type of a pattern (Microsoft Graph, recurrencePattern, type).
#[derive(Clone, Copy, Debug, PartialEq, Eq)]
pub enum Form {
    /// `daily`: each day, or each so many days by `interval`.
    Daily,
    /// `weekly`: the listed weekdays of a week.
    Weekly,
    /// `absoluteMonthly`: a day of the month.
    AbsoluteMonthly,
    /// `relativeMonthly`: the first, .. or last of the listed weekdays of a month.
    RelativeMonthly,
    /// `absoluteYearly`: a day of a month of the year.
    AbsoluteYearly,
    /// `relativeYearly`: the first, .. or last of the listed weekdays of a month of the year.
    RelativeYearly,
}

/// A pattern (Microsoft Graph, recurrencePattern).
///
/// A member that its type does not use is 0, but `first_day` is 6 and `index` is 1.
#[derive(Clone, Copy, Debug, PartialEq, Eq)]
pub struct Pattern {
    /// `type`: which days the pattern takes.
    pub form: Form,
    /// Every how many days, weeks, months or years it applies: 1 to 999 if daily or weekly, otherwise 1 to 99.
    pub interval: u32,
    /// The day of the month, 1 to 31; a shorter month has it on its last day.
    pub day_of_month: u8,
    /// The month, 1 to 12.
    pub month: u8,
    /// The weekdays: the sum of 1 for Sunday, 2 for Monday, up to 64 for Saturday.
    pub days: u8,
    /// The first weekday of a week, from 0 for Monday.
    pub first_day: u8,
    /// Which of the weekdays of the month, 1 to 4, or -1 for the last.
    pub index: i8,
}

/// Where a range ends (Microsoft Graph, recurrenceRange, type).
#[derive(Clone, Copy, Debug, PartialEq, Eq)]
pub enum RangeEnd {
    /// `noEnd`: the range has no end.
    NoEnd,
    /// `endDate`: on this day, which may still have an occurrence; days since 1970-01-01.
    EndDate(i64),
    /// `numbered`: after this number of occurrences, from 1.
    Numbered(u64),
}

/// A range (Microsoft Graph, recurrenceRange).
#[derive(Clone, Copy, Debug, PartialEq, Eq)]
pub struct Range {
    /// `startDate`, the first day that may have an occurrence, in days since 1970-01-01.
    pub start_day: i64,
    /// The end of the range, by its `type`.
    pub end: RangeEnd,
}

/// Whether an event repeats, and how (Microsoft Graph, patternedRecurrence).
#[derive(Clone, Copy, Debug, PartialEq, Eq)]
pub enum Repeat {
    /// The event occurs once, at its start.
    Once,
    /// The days of a pattern within a range, at the time of the start.
    Pattern {
        /// Which days the event takes.
        pattern: Pattern,
        /// From which day on, and up to which day or count.
        range: Range,
    },
}

/// An event (Microsoft Graph, event), or a bare recurrence, which is one of dates.
#[derive(Clone, Copy, Debug, PartialEq, Eq)]
pub struct GraphEvent {
    /// Whether its occurrences are dates or moments.
    pub kind: Kind,
    /// The start, a day number or a second number of the years 1 to 9999.
    pub start: i64,
    /// Whether the event repeats, and how.
    pub repeat: Repeat,
}
