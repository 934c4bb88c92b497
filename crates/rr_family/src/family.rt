// A kind of rule with its interval, its items in order, and the days that each of them has.
ghost use Rattle.std.specs.Prelude.{◌≡◌, ◌≤◌, ◌<◌, ◌≤ℤ◌, ℤ, ℕ};
ghost use Rattle.rr_family.specs.Places.{item_at, many_items, place_has_day};
ghost use Rattle.rr_model.specs.Calendar.{IsDayWithin};
ghost use Rattle.rr_model.specs.declared.vcal.FamilyKind.{FamilyKind};

use crate::items::{item_at, many_items};
use rr_model::{FamilyKind, Item};
use rr_num::is_congruent;

/// A kind of vCalendar rule with its interval, for a series that starts on some day.
///
/// Its items are numbered from 0, in the order in which they are tried and written. Days are numbered from 1970-01-01,
/// which is day 0. No call takes memory.
pub trait Family {
    /// The kind of rule, as contracts see it.
    ghost of_kind: { Self → FamilyKind };

    /// The interval, as contracts see it.
    ghost every: { Self → ℕ };

    /// The day on which the series starts.
    ghost start: { Self → ℤ };

    /// The kind of rule: which days are its items.
    fn family(&self) -> FamilyKind
        ensures { result ≡ of_kind self.now };

    /// Every how many days, weeks, months or years an item applies, from 1.
    fn interval(&self) -> u32
        ensures value { result ≡ every self.now }
        ensures some { 1 ≤ result };

    /// How many items there are, from 1 for the daily kind to 366 for days of the year.
    fn items(&self) -> u16
        ensures value { result ≡ many_items (of_kind self.now) }
        ensures few { result ≤ 366 }
    {
        many_items(self.family())
    }

    /// The item of a place.
    fn item(&self, place: u16) -> Item
        requires { place < many_items (of_kind self.now) }
        ensures { result ≡ item_at (of_kind self.now) place }
    {
        item_at(self.family(), place)
    }

    /// Whether the item of a place has the day (vCalendar 1.0, basic recurrence rule grammar).
    ///
    /// The day lies within 3,000,000,000,000 of day 0, and not before the start.
    fn gives(&self, place: u16, day: i64) -> bool
        requires place { place < many_items (of_kind self.now) }
        requires near { IsDayWithin 0 day }
        requires late { start self.now ≤ℤ day }
        ensures { result
            ≡ place_has_day (of_kind self.now) (every self.now) (start self.now) place day };
}

/// Each n days: the kind D.
#[derive(Clone, Copy, Debug)]
pub struct DayFamily {
    first_day: i64,
    interval: u32,
    ghost near: { IsDayWithin 0 first_day },
    ghost some: { 1 ≤ interval },
}

impl DayFamily {
    /// The kind D from this day, each n days: 1 to 999.
    pub fn new(first_day: i64, interval: u32) -> Self
        requires near { IsDayWithin 0 first_day }
        requires low { 1 ≤ interval }
        requires high { interval ≤ 999 }
        ensures start { result.first_day ≡ first_day }
        ensures every { result.interval ≡ interval }
    {
        DayFamily {
            first_day,
            interval,
        }
    }
}

impl Family for DayFamily {
    ghost use Rattle.rr_model.specs.declared.vcal.FamilyKind.TheVariants.{D};

    ghost of_kind = { λ self. D };

    ghost every = { λ self. self.interval };

    ghost start = { λ self. self.first_day };

    fn family(&self) -> FamilyKind {
        FamilyKind::D
    }

    fn interval(&self) -> u32 {
        self.interval
    }

    fn gives(&self, _place: u16, day: i64) -> bool {
        is_congruent(self.first_day, day, self.interval)
    }
}
