// Why an operand is refused, and out of memory.
ghost use Rattle.std.specs.Prelude.{◌≡◌};

use std::alloc::{AllocError, AllocFailed};
use std::fmt;

/// A member of a Microsoft Graph event, of its recurrencePattern or of its recurrenceRange.
///
/// One that is null counts as missing. Names of types, weekdays and indexes are read in any letter case.
#[derive(Clone, Copy, Debug, PartialEq, Eq)]
pub enum Member {
    /// `start` of an event: an object with `dateTime` and `timeZone`.
    Start,
    /// `dateTime` of the start: a moment of ISO 8601, with or without a `Z`.
    DateTime,
    /// `timeZone` of the start: a text, the name of a time zone.
    TimeZone,
    /// `isAllDay` of an event: true if its occurrences are dates.
    IsAllDay,
    /// `recurrence` of an event: an object with `pattern` and `range`.
    Recurrence,
    /// `pattern` of a recurrence: an object.
    Pattern,
    /// `range` of a recurrence: an object.
    Range,
    /// `type` of a pattern: one of the six names of `Form`.
    PatternType,
    /// `interval` of a pattern: 1 or more.
    Interval,
    /// `daysOfWeek` of a pattern: names of weekdays, at least one.
    DaysOfWeek,
    /// `firstDayOfWeek` of a pattern: the name of a weekday.
    FirstDayOfWeek,
    /// `index` of a pattern: `first` to `fourth`, or `last`.
    Index,
    /// `dayOfMonth` of a pattern: 1 to 31.
    DayOfMonth,
    /// `month` of a pattern: 1 to 12.
    Month,
    /// `type` of a range: one of the three names of `RangeEnd`.
    RangeType,
    /// `startDate` of a range: a date of ISO 8601.
    StartDate,
    /// `endDate` of a range: a date of ISO 8601.
    EndDate,
    /// `numberOfOccurrences` of a range: 1 or more.
    NumberOfOccurrences,
}

impl Member {
    ghost use Rattle.rr_model.specs.Text.Refusals.{member_text};

    /// The text that is printed: its name in JSON, for a `type` after the object that it belongs to.
    pub fn text(&self) -> &'static str
        ensures { result.now ≡ member_text self.now }
    {
        match self {
            Member::Start => "start",
            Member::DateTime => "dateTime",
            Member::TimeZone => "timeZone",
            Member::IsAllDay => "isAllDay",
            Member::Recurrence => "recurrence",
            Member::Pattern => "pattern",
            Member::Range => "range",
            Member::PatternType => "pattern.type",
            Member::Interval => "interval",
            Member::DaysOfWeek => "daysOfWeek",
            Member::FirstDayOfWeek => "firstDayOfWeek",
            Member::Index => "index",
            Member::DayOfMonth => "dayOfMonth",
            Member::Month => "month",
            Member::RangeType => "range.type",
            Member::StartDate => "startDate",
            Member::EndDate => "endDate",
            Member::NumberOfOccurrences => "numberOfOccurrences",
        }
    }
}

impl fmt::Display for Member {
    ghost use Rattle.std.specs.Prelude.{Some};
    ghost use Rattle.rr_model.specs.Text.Refusals.{member_text};

    ghost output = { λ member. Some (member_text member) };

    fn fmt<W: fmt::Write>(&self, f: &mut fmt::Formatter<W>) -> fmt::Result {
        write!(f, "{}", self.text())
    }
}

/// Why an operand is refused.
///
/// The number that a variant holds is a line: the physical line, from 1, on which an unfolded line begins. `NotSynchronised`
/// holds the number of a rule instead, from 1.
#[derive(Clone, Copy, Debug, PartialEq, Eq)]
pub enum Refusal {
    /// The text is longer than `MAX_INPUT` bytes.
    TooLong,
    /// The bytes are no UTF-8.
    NotText,
    /// A used line has no value, an END does not close the innermost open component, or the text ends
    /// within a component (then the line is the text's last).
    BadLine(u64),
    /// The text has more than one event: a second BEGIN:VEVENT stands in it.
    SeveralEvents,
    /// The event has no start.
    NoStart,
    /// A date or a moment is malformed, is no date of the years 1 to 9999, or leaves these years by the
    /// stated offset.
    BadMoment(u64),
    /// A date or a moment is of another kind than the start.
    MixedKinds(u64),
    /// A rule is not in its grammar.
    BadRule(u64),
    /// A part of a rule, or the start, stands twice.
    PartTwice(u64),
    /// A number of a rule is outside its range.
    NumberRange(u64),
    /// A rule has both UNTIL and COUNT.
    UntilAndCount,
    /// A combination of parts that RFC 5545, section 3.3.10, does not allow.
    NotAllowed,
    /// BYSECOND lists 60, a leap second, which no moment of rr has.
    LeapSecond,
    /// A moment has a `Z`, the start is local time, and no offset is stated.
    UtcMoment,
    /// UNTIL has another kind than the start.
    UntilKind,
    /// UNTIL is before the start.
    UntilBeforeStart,
    /// The start is not chosen by this rule.
    NotSynchronised(u32),
    /// A value of RDATE is a period.
    PeriodValue,
    /// A rule has RSCALE or SKIP (RFC 7529).
    Extended,
    /// The text is no JSON (RFC 8259), is nested more than 127 levels deep, or is no object.
    BadJson,
    /// A member of a Graph event is missing, or has no allowed value.
    BadMember(Member),
    /// The date of a Graph event's start is not the start date of its range.
    StartDiffers,
    /// A Graph pattern and its range have no occurrence in the years 1 to 9999.
    NoOccurrence,
    /// The interval of a Graph pattern is above 999 (daily and weekly) or 99 (the other types).
    IntervalTooLarge,
    /// The cycle is longer than `MAX_CYCLE_DAYS`.
    CycleTooLong,
    /// A rule with a COUNT has fewer members than it counts up to `MAX_SPAN_DAYS` days after the start's day.
    CountedTooFar,
    /// The distinct time sets have more than `MAX_SECONDS` seconds.
    TooManyMoments,
    /// No rule or pattern of the kind that is looked for has these occurrences.
    NotSayable,
    /// A seventeenth rule, RRULE and EXRULE together, or more dates than are allowed.
    TooManyParts,
    /// A value of a list is not above the value before it.
    NotRising(u64),
    /// The text is no canonical text of a set of occurrences within its bounds.
    NotCanonical,
    /// A union of dates and moments is asked.
    MixedSets,
    /// The occurrence of this number lies past `MAX_DAY`.
    PastRange,
}

impl Refusal {
    ghost use Rattle.rr_model.specs.Text.Refusals.{refusal_name};

    /// The name that is printed: that of the variant.
    pub fn name(&self) -> &'static str
        ensures { result.now ≡ refusal_name self.now }
    {
        match self {
            Refusal::TooLong => "TooLong",
            Refusal::NotText => "NotText",
            Refusal::BadLine(_) => "BadLine",
            Refusal::SeveralEvents => "SeveralEvents",
            Refusal::NoStart => "NoStart",
            Refusal::BadMoment(_) => "BadMoment",
            Refusal::MixedKinds(_) => "MixedKinds",
            Refusal::BadRule(_) => "BadRule",
            Refusal::PartTwice(_) => "PartTwice",
            Refusal::NumberRange(_) => "NumberRange",
            Refusal::UntilAndCount => "UntilAndCount",
            Refusal::NotAllowed => "NotAllowed",
            Refusal::LeapSecond => "LeapSecond",
            Refusal::UtcMoment => "UtcMoment",
            Refusal::UntilKind => "UntilKind",
            Refusal::UntilBeforeStart => "UntilBeforeStart",
            Refusal::NotSynchronised(_) => "NotSynchronised",
            Refusal::PeriodValue => "PeriodValue",
            Refusal::Extended => "Extended",
            Refusal::BadJson => "BadJson",
            Refusal::BadMember(_) => "BadMember",
            Refusal::StartDiffers => "StartDiffers",
            Refusal::NoOccurrence => "NoOccurrence",
            Refusal::IntervalTooLarge => "IntervalTooLarge",
            Refusal::CycleTooLong => "CycleTooLong",
            Refusal::CountedTooFar => "CountedTooFar",
            Refusal::TooManyMoments => "TooManyMoments",
            Refusal::NotSayable => "NotSayable",
            Refusal::TooManyParts => "TooManyParts",
            Refusal::NotRising(_) => "NotRising",
            Refusal::NotCanonical => "NotCanonical",
            Refusal::MixedSets => "MixedSets",
            Refusal::PastRange => "PastRange",
        }
    }
}

impl fmt::Display for Refusal {
    ghost use Rattle.std.specs.Prelude.{Some};
    ghost use Rattle.rr_model.specs.Text.Refusals.{refusal_text};

    ghost output = { λ refusal. Some (refusal_text refusal) };

    fn fmt<W: fmt::Write>(&self, f: &mut fmt::Formatter<W>) -> fmt::Result {
        let name = self.name();
        match self {
            Refusal::BadLine(line)
            | Refusal::BadMoment(line)
            | Refusal::MixedKinds(line)
            | Refusal::BadRule(line)
            | Refusal::PartTwice(line)
            | Refusal::NumberRange(line)
            | Refusal::NotRising(line) => write!(f, "{name} {line}"),
            Refusal::NotSynchronised(rule) => write!(f, "{name} {rule}"),
            Refusal::BadMember(member) => write!(f, "{name} {member}"),
            _ => write!(f, "{name}"),
        }
    }
}

/// A call could not get the memory that it needs.
#[derive(Clone, Copy, Debug, PartialEq, Eq)]
pub struct NoMemory;

impl From<AllocError> for NoMemory {
    ghost from_gives = { λ _ _. Unit {0} };

    fn from(_error: AllocError) -> Self {
        NoMemory
    }
}

impl<T: Drop> From<AllocFailed<T>> for NoMemory {
    ghost from_gives = { λ _ _. Unit {0} };

    fn from(_error: AllocFailed<T>) -> Self {
        NoMemory
    }
}

/// What a call that takes memory and judges its argument answers in place of a value.
#[derive(Clone, Copy, Debug, PartialEq, Eq)]
pub enum Fault {
    /// The argument is refused, for this reason.
    Refused(Refusal),
    /// The call could not get the memory that it needs.
    NoMemory,
}

impl From<NoMemory> for Fault {
    ghost use Rattle.std.specs.Prelude.{◌≡◌};
    ghost use Rattle.rr_model.specs.declared.refusal.Fault.TheVariants.{NoMemory};

    ghost from_gives = { λ _ e. e ≡ NoMemory };

    fn from(_error: NoMemory) -> Self {
        Fault::NoMemory
    }
}

impl From<Refusal> for Fault {
    ghost use Rattle.std.specs.Prelude.{◌≡◌};
    ghost use Rattle.rr_model.specs.declared.refusal.Fault.TheVariants.{Refused};

    ghost from_gives = { λ refusal e. e ≡ Refused refusal };

    fn from(refusal: Refusal) -> Self {
        Fault::Refused(refusal)
    }
}

impl From<AllocError> for Fault {
    ghost use Rattle.std.specs.Prelude.{◌≡◌};
    ghost use Rattle.rr_model.specs.declared.refusal.Fault.TheVariants.{NoMemory};

    ghost from_gives = { λ _ e. e ≡ NoMemory };

    fn from(_error: AllocError) -> Self {
        Fault::NoMemory
    }
}
