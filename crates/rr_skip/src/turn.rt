// A month and the month before it: only these two can give a day of the month.
ghost use Rattle.std.specs.Prelude.{◌≡◌, ◌≤◌, ◌+ℤ◌, ◌-ℤ◌, pos};
ghost use Rattle.rr_model.specs.Calendar.{IsDayWithin};
ghost use Rattle.rr_model.specs.Moment.Units.{month_number};
ghost use Rattle.rr_skip.specs.Months;
ghost use Rattle.rr_skip.specs.Months.{gives_day, is_day_chosen};
ghost use Rattle.rr_skip.specs.NearMonths.{IsNearMonth};
ghost use Rattle.rr_skip.specs.Walks.{IsReachedIn, IsTurn};

use crate::months::Month;
use crate::schedule::Schedule;
use rr_cal::{Day, month_number};

/// A month and the month before it, and whether they are due.
#[derive(Clone, Copy)]
pub(crate) struct Turn {
    pub(crate) before: Month,
    pub(crate) month: Month,
    pub(crate) was_due: bool,
    pub(crate) is_due: bool,
}

impl Turn {
    /// The month of `day` and the month before it, and whether each is due.
    pub(crate) fn at(schedule: &Schedule, day: i64) -> Turn
        requires some { 1 ≤ schedule.now.interval }
        requires near { IsDayWithin 1000 day }
        requires month { IsNearMonth (month_number day) }
        requires before { IsNearMonth (month_number day -ℤ pos 1) }
        ensures turn { IsTurn schedule.now result }
        ensures of_day { result.month.number ≡ month_number day }
    {
        let number = month_number(&Day::new(day));
        let before = Month::new(number - 1);
        let month = Month::new(number);
        Turn {
            before,
            month,
            was_due: schedule.is_due(&before),
            is_due: schedule.is_due(&month),
        }
    }

    /// The month after `month` and the month before it, and whether each is due.
    fn next(&self, schedule: &Schedule) -> Turn
        requires some { 1 ≤ schedule.now.interval }
        requires near { IsNearMonth (self.now.month.number +ℤ pos 1) }
        requires turn { IsTurn schedule.now self.now }
        ensures turn { IsTurn schedule.now result }
        ensures of_next { result.month.number ≡ self.now.month.number +ℤ pos 1 }
    {
        let month = self.month.next();
        Turn {
            before: self.month,
            month,
            was_due: self.is_due,
            is_due: schedule.is_due(&month),
        }
    }

    /// The month of `day` and the month before it; the day lies in this month, or is the first day after it.
    pub(crate) fn advance_to(self, schedule: &Schedule, day: i64) -> Turn
        requires some { 1 ≤ schedule.now.interval }
        requires near { IsNearMonth (month_number day) }
        requires turn { IsTurn schedule.now self }
        requires day { IsReachedIn self.month.number day }
        ensures turn { IsTurn schedule.now result }
        ensures of_day { result.month.number ≡ month_number day }
    {
        if day == self.month.end() {
            self.next(schedule)
        } else {
            self
        }
    }

    /// Whether a day of the month is chosen.
    pub(crate) fn chooses(&self, schedule: &Schedule, day: i64) -> bool
        requires near { IsDayWithin 1000 day }
        requires turn { IsTurn schedule.now self.now }
        requires of_day { self.now.month.number ≡ month_number day }
        ensures { result ≡ is_day_chosen schedule.now day }
    {
        let own = gives_day(schedule, &self.month, self.is_due, day);
        let past = gives_day(schedule, &self.before, self.was_due, day);
        own || past
    }
}

// Whether a month, due or not, gives a day.
fn gives_day(schedule: &Schedule, month: &Month, is_due: bool, day: i64) -> bool
    requires near { IsDayWithin 1000 day }
    requires due { is_due ≡ Months.is_due schedule.now month.now.number }
    ensures { result ≡ gives_day schedule.now month.now.number day }
{
    is_due && schedule.some_falls_on(month, day)
}
