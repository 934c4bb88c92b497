// Weekdays of each n weeks.
ghost use Rattle.std.specs.Prelude.{◌≡◌, ◌≤◌};
ghost use Rattle.rr_model.specs.Calendar.{IsDayWithin};

use crate::family::Family;
use rr_cal::{week_index, weekday};
use rr_model::FamilyKind;
use rr_num::is_congruent;

/// Weekdays of each n weeks, which begin on Monday: the kind W.
#[derive(Clone, Copy, Debug)]
pub struct WeekFamily {
    first_day: i64,
    interval: u32,
    ghost near: { IsDayWithin 0 first_day },
    ghost some: { 1 ≤ interval },
}

impl WeekFamily {
    /// The kind W from this day on, in days since 1970-01-01, each n weeks: 1 to 999.
    pub fn new(first_day: i64, interval: u32) -> Self
        requires near { IsDayWithin 0 first_day }
        requires low { 1 ≤ interval }
        requires high { interval ≤ 999 }
        ensures start { result.first_day ≡ first_day }
        ensures every { result.interval ≡ interval }
    {
        WeekFamily {
            first_day,
            interval,
        }
    }
}

impl Family for WeekFamily {
    ghost use Rattle.rr_model.specs.declared.vcal.FamilyKind.TheVariants.{W};

    ghost of_kind = { λ self. W };

    ghost every = { λ self. self.interval };

    ghost start = { λ self. self.first_day };

    fn family(&self) -> FamilyKind {
        FamilyKind::W
    }

    fn interval(&self) -> u32 {
        self.interval
    }

    fn gives(&self, place: u16, day: i64) -> bool {
        let from = week_index(self.first_day, 0);
        let to = week_index(day, 0);
        is_congruent(from, to, self.interval) && u16::from(weekday(day)) == place
    }
}
