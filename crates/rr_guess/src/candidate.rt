// A pattern that is tried.
ghost use Rattle.std.specs.Prelude.{◌≤◌};

use crate::months::{Pick, weekday_after};
use crate::order::Turn;
use crate::second::SecondDays;
use rr_cal::Day;
use rr_model::{Form, Pattern};

/// The first weekdays of a week in the order in which they are tried, from 0 for Monday.
pub(crate) const FIRST_DAYS: [u8; 7] = [6, 0, 1, 2, 3, 4, 5];

/// A day of the set through which patterns are tried.
#[derive(Clone, Copy)]
pub(crate) struct Here {
    /// Its index in the row.
    pub index: u32,
    /// The day, in days since 1970-01-01, with its date and its weekday.
    pub day: Day,
    /// The place of its month among the months of the row.
    pub month: u32,
}

/// Which days of its units a pattern has.
#[derive(Clone, Copy)]
pub(crate) enum Members {
    /// Each day of its units, which are days themselves.
    Day,
    /// Weekdays of each week that counts.
    Week {
        /// The first weekday of a week, from 0 for Monday.
        first_day: u8,
        /// The weekdays: the sum of 1 for Sunday, 2 for Monday, up to 64 for Saturday.
        weekdays: u8,
    },
    /// A day of each month that counts.
    Month(Pick),
}

/// A pattern that has a day.
#[derive(Clone, Copy)]
pub(crate) struct Candidate {
    /// The interval and the type.
    pub turn: Turn,
    /// Which days of its units it has.
    pub members: Members,
}

impl Candidate {
    /// Each day, or each of some days.
    pub(crate) fn by_days(turn: &Turn) -> Candidate {
        Candidate {
            turn: *turn,
            members: Members::Day,
        }
    }

    /// Weekdays of weeks that begin on a weekday.
    pub(crate) fn by_weeks(turn: &Turn, first_day: u8, weekdays: u8) -> Candidate {
        Candidate {
            turn: *turn,
            members: Members::Week {
                first_day,
                weekdays,
            },
        }
    }

    /// The pattern of the months that a type and an interval count, with one of their days.
    pub(crate) fn by_months(turn: &Turn, pick: Pick) -> Candidate {
        Candidate {
            turn: *turn,
            members: Members::Month(pick),
        }
    }

    /// The pattern, if it has a day of this month.
    pub(crate) fn pattern(&self, month: u8) -> Pattern {
        let form = self.turn.form;
        let month = if is_yearly(form) { month } else { 0 };
        let each = Pattern {
            form,
            interval: self.turn.interval,
            day_of_month: 0,
            month: 0,
            days: 0,
            first_day: 6,
            index: 1,
        };
        match self.members {
            Members::Day => each,
            Members::Week {
                first_day,
                weekdays,
            } => Pattern {
                days: weekdays,
                first_day,
                ..each
            },
            Members::Month(Pick::Number(day_of_month)) => Pattern {
                day_of_month,
                month,
                ..each
            },
            Members::Month(Pick::Indexed { index, weekdays }) => Pattern {
                index,
                days: weekdays,
                month,
                ..each
            },
        }
    }

    /// How many days or months lie from one of its units to the next.
    pub(crate) fn step(&self) -> u32
        ensures { 1 ≤ result }
    {
        match self.turn.form {
            Form::Daily | Form::AbsoluteMonthly | Form::RelativeMonthly => self.turn.interval,
            Form::Weekly => 7 * self.turn.interval,
            Form::AbsoluteYearly | Form::RelativeYearly => 12 * self.turn.interval,
        }
    }

    /// The unit of a day that it has: the index of the day or of its week's first day, or the place of its month.
    pub(crate) fn unit(&self, here: &Here) -> u32 {
        match self.members {
            Members::Day => here.index,
            Members::Week { first_day, .. } => {
                let into = days_into_week(first_day, here.day.weekday);
                here.index.saturating_sub(u32::from(into))
            }
            Members::Month(_) => here.month,
        }
    }

    /// A unit that is not after that of the settled day, and hardly before it.
    pub(crate) fn settled_unit(&self, days: &SecondDays) -> u32 {
        match self.members {
            Members::Day => days.settled,
            Members::Week { .. } => days.settled.saturating_sub(6),
            Members::Month(_) => days.settled_month,
        }
    }
}

/// How many days of a week that begins on one weekday lie before another.
pub(crate) fn days_into_week(first_day: u8, weekday: u8) -> u8 {
    weekday_after(weekday, 7 - first_day.min(7))
}

fn is_yearly(form: Form) -> bool {
    matches!(form, Form::AbsoluteYearly | Form::RelativeYearly)
}
