// Recurrence rules and series of vCalendar 1.0.
use crate::{Dates, End, Items, Kind, Numbers, Stamp, VRules};

/// The kind of a rule (vCalendar 1.0, basic recurrence rule grammar).
#[derive(Clone, Copy, Debug, PartialEq, Eq)]
pub enum FamilyKind {
    /// `D`: each day, or each so many days.
    D,
    /// `W`: weekly, on listed weekdays.
    W,
    /// `MD`, monthly by days of the month.
    MD,
    /// `MP`, monthly by places of weekdays.
    MP,
    /// `YM`: yearly, in listed months.
    YM,
    /// `YD`, yearly by days of the year.
    YD,
}

/// A recurrence rule (vCalendar 1.0, basic recurrence rule grammar).
#[derive(Drop)]
pub struct VRule {
    /// The letters with which the rule begins.
    pub family: FamilyKind,
    /// Every how many days, weeks, months or years it applies, from 1.
    pub interval: u32,
    /// What it lists, at least one item.
    pub items: Items,
    /// The end that its count or its end moment states.
    pub end: End,
}

/// The words of a rule as far as they are read.
#[derive(Drop)]
pub struct VRuleParts {
    /// The letters with which the rule begins.
    pub family: FamilyKind,
    /// Every how many days, weeks, months or years it applies.
    pub interval: u32,
    /// What it lists so far.
    pub items: Items,
    /// The places of the group that is being read, 1 to 5 or -5 to -1.
    pub places: Numbers,
    /// Whether a weekday has followed them.
    pub has_weekday: bool,
    /// The number of events, 0 for no end.
    pub count: Option<u64>,
    /// The end moment as the text states it.
    pub until: Option<Stamp>,
}

/// A series of vCalendar 1.0: a start, which always counts, rules, excluded rules, and dates beside them.
#[derive(Drop)]
pub struct VSeries {
    /// Whether its occurrences are dates or moments.
    pub kind: Kind,
    /// DTSTART, a day number or a second number of the years 1 to 9999.
    pub start: i64,
    /// RRULE, with EXRULE at most 16 rules.
    pub rules: VRules,
    /// EXRULE, rules whose members do not occur.
    pub excluded: VRules,
    /// RDATE, dates that occur besides: day numbers or second numbers, as `kind` says.
    pub plus: Dates,
    /// EXDATE, dates that do not occur: day numbers or second numbers, as `kind` says.
    pub minus: Dates,
}
