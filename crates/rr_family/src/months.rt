// Days of each n months.
ghost use Rattle.std.specs.Prelude.{◌≡◌, ◌≤◌, pos, ◌-ℤ◌};
ghost use Rattle.rr_model.specs.Calendar.{IsDayWithin};
ghost use Rattle.rr_model.specs.Moment.Units.{month_number};
ghost use Rattle.rr_model.specs.Vcal.Members.{item_holds};
ghost use Rattle.rr_model.specs.Whole.{divides};
ghost use Rattle.rr_model.specs.declared.item.Item.TheVariants.{MonthDay};

use crate::family::Family;
use crate::items::from_both_ends;
use rr_cal::{Day, month_number};
use rr_model::FamilyKind;
use rr_num::is_congruent;
use rr_parts::{is_ordinal_of_day, number_from_back};

/// Days of each n months, counted from the front or from the back: the kind MD.
#[derive(Clone, Copy, Debug)]
pub struct MonthDayFamily {
    first_day: i64,
    interval: u32,
    ghost near: { IsDayWithin 0 first_day },
    ghost some: { 1 ≤ interval },
}

impl MonthDayFamily {
    /// The kind MD from this day on, in days since 1970-01-01, each n months: 1 to 99.
    pub fn new(first_day: i64, interval: u32) -> Self
        requires near { IsDayWithin 0 first_day }
        requires low { 1 ≤ interval }
        requires high { interval ≤ 99 }
        ensures start { result.first_day ≡ first_day }
        ensures every { result.interval ≡ interval }
    {
        MonthDayFamily {
            first_day,
            interval,
        }
    }
}

impl Family for MonthDayFamily {
    ghost use Rattle.rr_model.specs.declared.vcal.FamilyKind.TheVariants.{MD};

    ghost of_kind = { λ self. MD };

    ghost every = { λ self. self.interval };

    ghost start = { λ self. self.first_day };

    fn family(&self) -> FamilyKind {
        FamilyKind::MD
    }

    fn interval(&self) -> u32 {
        self.interval
    }

    fn gives(&self, place: u16, day: i64) -> bool {
        let day = Day::new(day);
        let number = from_both_ends(31, place);
        lies_months_apart(self.first_day, &day, self.interval) && is_month_day(number, &day)
    }
}

/// Weekdays at places of each n months, counted from the front or from the back: the kind MP.
#[derive(Clone, Copy, Debug)]
pub struct MonthPlaceFamily {
    first_day: i64,
    interval: u32,
    ghost near: { IsDayWithin 0 first_day },
    ghost some: { 1 ≤ interval },
}

impl MonthPlaceFamily {
    /// The kind MP from this day on, in days since 1970-01-01, each n months: 1 to 99.
    pub fn new(first_day: i64, interval: u32) -> Self
        requires near { IsDayWithin 0 first_day }
        requires low { 1 ≤ interval }
        requires high { interval ≤ 99 }
        ensures start { result.first_day ≡ first_day }
        ensures every { result.interval ≡ interval }
    {
        MonthPlaceFamily {
            first_day,
            interval,
        }
    }
}

impl Family for MonthPlaceFamily {
    ghost use Rattle.rr_model.specs.declared.vcal.FamilyKind.TheVariants.{MP};

    ghost of_kind = { λ self. MP };

    ghost every = { λ self. self.interval };

    ghost start = { λ self. self.first_day };

    fn family(&self) -> FamilyKind {
        FamilyKind::MP
    }

    fn interval(&self) -> u32 {
        self.interval
    }

    fn gives(&self, place: u16, day: i64) -> bool {
        let day = Day::new(day);
        let number = from_both_ends(5, place / 7);
        let weekday = (place % 7) as u8;
        lies_months_apart(self.first_day, &day, self.interval)
            && (day.weekday == weekday && is_ordinal_of_day(number, false, &day))
    }
}

// Whether the day has this number in its month, from the front or from the back.
fn is_month_day(number: i8, day: &Day) -> bool
    ensures { result ≡ item_holds (pos 0) (MonthDay number) day.now.number }
{
    let from_back = number_from_back(u16::from(day.day_of_month), u16::from(day.days_in_month));
    i16::from(number) == i16::from(day.day_of_month) || i16::from(number) == from_back
}

// Whether the day's month lies a multiple of the interval from that of another day.
fn lies_months_apart(first_day: i64, day: &Day, interval: u32) -> bool
    requires near { IsDayWithin 0 first_day }
    requires some { 1 ≤ interval }
    ensures { result ≡ divides interval (month_number day.now.number -ℤ month_number first_day) }
{
    let first = Day::new(first_day);
    is_congruent(month_number(&first), month_number(day), interval)
}
