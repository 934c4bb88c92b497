// Series whose rule says what becomes of a day that a month lacks (RFC 7529, section 4).
use rr_model::{Kind, Rule};

/// SKIP, what becomes of a listed day that a month lacks (RFC 7529, section 4.1).
#[derive(Clone, Copy, Debug, PartialEq, Eq)]
pub enum Skip {
    /// OMIT: the day is left out.
    Omit,
    /// BACKWARD: it moves to the last day of the month.
    Backward,
    /// FORWARD: it moves to the first day of the next month.
    Forward,
}

/// A rule with its SKIP (RFC 7529, section 4).
#[derive(Drop)]
pub struct SkipRule {
    /// What becomes of a day that a month lacks.
    pub skip: Skip,
    /// The rule beside it: MONTHLY or YEARLY, with no BY part but BYMONTH and positive BYMONTHDAY.
    pub rule: Rule,
}

/// A recurrence set (RFC 5545, section 3.8.5) of a start and at most one rule, with its SKIP.
#[derive(Drop)]
pub struct SkipSeries {
    /// Whether its occurrences are dates or moments.
    pub kind: Kind,
    /// DTSTART, in days or in seconds since 1970-01-01.
    pub start: i64,
    /// RRULE; without it the start alone occurs.
    pub rule: Option<SkipRule>,
}
