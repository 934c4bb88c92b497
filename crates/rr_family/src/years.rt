// Months or days of each n years.
ghost use Rattle.std.specs.Prelude.{◌≡◌, ◌≤◌};
ghost use Rattle.rr_model.specs.Calendar.{IsDayWithin};

use crate::family::Family;
use rr_cal::Day;
use rr_model::FamilyKind;
use rr_num::is_congruent;

/// The start's day of the month in months of each n years: the kind YM.
#[derive(Clone, Copy, Debug)]
pub struct YearMonthFamily {
    first_day: i64,
    interval: u32,
    ghost near: { IsDayWithin 0 first_day },
    ghost some: { 1 ≤ interval },
}

impl YearMonthFamily {
    /// The kind YM from this day on, in days since 1970-01-01, each n years: 1 to 99.
    pub fn new(first_day: i64, interval: u32) -> Self
        requires near { IsDayWithin 0 first_day }
        requires low { 1 ≤ interval }
        requires high { interval ≤ 99 }
        ensures start { result.first_day ≡ first_day }
        ensures every { result.interval ≡ interval }
    {
        YearMonthFamily {
            first_day,
            interval,
        }
    }
}

impl Family for YearMonthFamily {
    ghost use Rattle.rr_model.specs.declared.vcal.FamilyKind.TheVariants.{YM};

    ghost of_kind = { λ self. YM };

    ghost every = { λ self. self.interval };

    ghost start = { λ self. self.first_day };

    fn family(&self) -> FamilyKind {
        FamilyKind::YM
    }

    fn interval(&self) -> u32 {
        self.interval
    }

    fn gives(&self, place: u16, day: i64) -> bool {
        let from = Day::new(self.first_day);
        let to = Day::new(day);
        is_congruent(from.year, to.year, self.interval)
            && (u16::from(to.month) == place + 1 && to.day_of_month == from.day_of_month)
    }
}

/// Days of each n years: the kind YD.
#[derive(Clone, Copy, Debug)]
pub struct YearDayFamily {
    first_day: i64,
    interval: u32,
    ghost near: { IsDayWithin 0 first_day },
    ghost some: { 1 ≤ interval },
}

impl YearDayFamily {
    /// The kind YD from this day on, in days since 1970-01-01, each n years: 1 to 99.
    pub fn new(first_day: i64, interval: u32) -> Self
        requires near { IsDayWithin 0 first_day }
        requires low { 1 ≤ interval }
        requires high { interval ≤ 99 }
        ensures start { result.first_day ≡ first_day }
        ensures every { result.interval ≡ interval }
    {
        YearDayFamily {
            first_day,
            interval,
        }
    }
}

impl Family for YearDayFamily {
    ghost use Rattle.rr_model.specs.declared.vcal.FamilyKind.TheVariants.{YD};

    ghost of_kind = { λ self. YD };

    ghost every = { λ self. self.interval };

    ghost start = { λ self. self.first_day };

    fn family(&self) -> FamilyKind {
        FamilyKind::YD
    }

    fn interval(&self) -> u32 {
        self.interval
    }

    fn gives(&self, place: u16, day: i64) -> bool {
        let from = Day::new(self.first_day);
        let to = Day::new(day);
        is_congruent(from.year, to.year, self.interval) && place + 1 == to.day_of_year
    }
}
