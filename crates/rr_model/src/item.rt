// What a recurrence rule of vCalendar 1.0 lists, and the order in which it lists it.
ghost use Rattle.std.specs.Prelude.{◌≡◌, refl};
ghost use Rattle.std.specs.Cmp.{eq_by_cmp_equiv, partial_equiv_from_equiv, partial_order_from_agreeing_total};
ghost use Rattle.std.specs.Ordering.{as_partial_cmp};
ghost use Rattle.rr_model.specs.Vcal.Items.{item_cmp, item_eq, item_key, item_total};

use std::cmp::Ordering;

/// One item of a rule (vCalendar 1.0, basic recurrence rule grammar).
///
/// Items are ordered by variant, then by number, then by weekday. Numbers from the back come after those from the
/// front, and the last one is the first of them.
#[derive(Clone, Copy, Debug)]
pub enum Item {
    /// Each day, the one item of a daily rule.
    Every,
    /// A weekday, from 0 for Monday.
    Weekday(u8),
    /// A day of the month, 1 to 31, or -31 to -1 from the back.
    MonthDay(i8),
    /// A weekday at a place in the month.
    Place {
        /// Which of these weekdays, 1 to 5, or -5 to -1 from the back.
        place: i8,
        /// The weekday, from 0 for Monday.
        weekday: u8,
    },
    /// A month, 1 to 12, with the day of the month that the start has.
    Month(u8),
    /// A day of the year, 1 to 366.
    YearDay(u16),
}

// What the order of items compares, field by field.
#[derive(Clone, Copy, PartialEq, Eq, PartialOrd, Ord)]
struct ItemKey {
    // The variant, and whether its number counts from the back.
    group: u8,
    // The number, whatever its sign.
    number: u16,
    // The weekday at a place.
    weekday: u8,
}

impl Item {
    // What the order compares.
    fn key(&self) -> ItemKey
        ensures { result ≡ item_key self.now }
    {
        match *self {
            Item::Every => key(0, 0, 0),
            Item::Weekday(weekday) => key(1, u16::from(weekday), 0),
            Item::MonthDay(day) => key(2 + u8::from(day < 0), u16::from(day.unsigned_abs()), 0),
            Item::Place { place, weekday } => key(
                4 + u8::from(place < 0),
                u16::from(place.unsigned_abs()),
                weekday,
            ),
            Item::Month(month) => key(6, u16::from(month), 0),
            Item::YearDay(day) => key(7, day, 0),
        }
    }
}

// The key with these fields.
fn key(group: u8, number: u16, weekday: u8) -> ItemKey
    ensures { result ≡ record { group = group; number = number; weekday = weekday } }
{
    ItemKey {
        group,
        number,
        weekday,
    }
}

impl PartialEq for Item {
    ghost eq = { item_eq };

    ghost laws = { partial_equiv_from_equiv (eq_by_cmp_equiv item_total) };

    fn eq(&self, other: &Item) -> bool {
        self.key() == other.key()
    }
}

impl Eq for Item {
    ghost laws = { eq_by_cmp_equiv item_total };
}

impl Ord for Item {
    ghost cmp = { item_cmp };

    ghost total = { item_total };

    ghost matches_partial_cmp = { λ x y. refl };

    ghost matches_eq = { λ x y. refl };

    fn cmp(&self, other: &Item) -> Ordering {
        self.key().cmp(&other.key())
    }
}

impl PartialOrd for Item {
    ghost partial_cmp = { as_partial_cmp item_cmp };

    ghost laws = { partial_order_from_agreeing_total item_cmp item_total
        (λ x y. refl) (λ x y. refl) };

    fn partial_cmp(&self, other: &Item) -> Option<Ordering> {
        Some(self.cmp(other))
    }
}
