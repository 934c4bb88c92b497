// The days of a pattern in a row of days.
ghost use Rattle.std.specs.Prelude.{◌≤◌};

use crate::candidate::{Candidate, Here, Members, days_into_week};
use crate::months::{Month, has_weekday_after};
use crate::second::SecondDays;

/// A pattern on its way through a row of days.
#[derive(Clone, Copy)]
pub(crate) struct Walk {
    unit: u32,
    // How many days of the unit have been passed.
    passed: u8,
    step: u32,
    members: Members,
}

impl Walk {
    /// Each `step`-th day, from an index on.
    pub(crate) fn by_days(index: u32, step: u32) -> Walk {
        Walk {
            unit: index,
            passed: 0,
            step,
            members: Members::Day,
        }
    }

    /// A pattern from one of its days on.
    pub(crate) fn from_here(candidate: &Candidate, here: &Here) -> Walk {
        let passed = match candidate.members {
            Members::Week { first_day, .. } => days_into_week(first_day, here.day.weekday),
            _ => 0,
        };
        Walk {
            unit: candidate.unit(here),
            passed,
            step: candidate.step(),
            members: candidate.members,
        }
    }

    /// A pattern that has a day, from the first of its units that is not before a unit.
    pub(crate) fn from_unit(candidate: &Candidate, here: &Here, unit: u32) -> Walk {
        let step = candidate.step();
        Walk {
            unit: first_unit(candidate.unit(here), unit, step),
            passed: 0,
            step,
            members: candidate.members,
        }
    }

    /// The index of its next day, if that lies before an end.
    pub(crate) fn next_before(&mut self, days: &SecondDays, end: u32) -> Option<u32> {
        let index = self.next(days.months.as_slice())?;
        (index < end).then_some(index)
    }

    // The index of its next day; none beyond the months that are known.
    fn next(&mut self, months: &[Month]) -> Option<u32> {
        match self.members {
            Members::Day => {
                let index = self.unit;
                self.pass_unit();
                Some(index)
            }
            Members::Week {
                first_day,
                weekdays,
            } => self.next_of_week(first_day, weekdays),
            Members::Month(pick) => {
                let month = months.get(self.unit as usize)?;
                let before = pick.days_before(month)?;
                self.pass_unit();
                Some(month.first.saturating_add(u32::from(before)))
            }
        }
    }

    // The index of its next day of some weekdays.
    fn next_of_week(&mut self, first_day: u8, weekdays: u8) -> Option<u32> {
        for _ in 0..7 {
            let index = self.unit.saturating_add(u32::from(self.passed));
            let has = has_weekday_after(first_day, self.passed, weekdays);
            self.pass_day();
            if has {
                return Some(index);
            }
        }
        None
    }

    // A day of the week is passed.
    fn pass_day(&mut self) {
        if self.passed < 6 {
            self.passed += 1;
        } else {
            self.passed = 0;
            self.pass_unit();
        }
    }

    // Goes on to the next unit that counts.
    fn pass_unit(&mut self) {
        self.unit = self.unit.saturating_add(self.step);
    }
}

// The first of the units that lie whole steps from one of them, not before another unit.
fn first_unit(unit: u32, from: u32, step: u32) -> u32
    requires { 1 ≤ step }
{
    from.saturating_add(unit.saturating_sub(from) % step)
}
