// The items of each kind of rule, in the order in which they are tried and written.
ghost use Rattle.std.specs.Prelude.{◌≡◌, ◌≤◌, ◌<◌, ◌+◌};
ghost use Rattle.rr_family.specs.Places.{from_both_ends, item_at, many_items};

use rr_model::{FamilyKind, Item};

/// How many items a kind has, from 1 for the daily kind to 366 for days of the year.
pub fn many_items(kind: FamilyKind) -> u16
    ensures value { result ≡ many_items kind }
    ensures few { result ≤ 366 }
{
    match kind {
        FamilyKind::D => 1,
        FamilyKind::W => 7,
        FamilyKind::MD => 62,
        FamilyKind::MP => 70,
        FamilyKind::YM => 12,
        FamilyKind::YD => 366,
    }
}

/// The item at an index, from 0.
///
/// Weekdays begin with Monday. Days and places in a month are 1 and up from the front, and then -1 and down from the
/// back; the items of a place are in the order of their weekdays.
pub fn item_at(kind: FamilyKind, index: u16) -> Item
    requires { index < many_items kind }
    ensures { result ≡ item_at kind index }
{
    match kind {
        FamilyKind::D => Item::Every,
        FamilyKind::W => Item::Weekday(index as u8),
        FamilyKind::MD => Item::MonthDay(from_both_ends(31, index)),
        FamilyKind::MP => Item::Place {
            place: from_both_ends(5, index / 7),
            weekday: (index % 7) as u8,
        },
        FamilyKind::YM => Item::Month(index as u8 + 1),
        FamilyKind::YD => Item::YearDay(index + 1),
    }
}

// The numbers 1 up to the most, then -1 down to the most from the back, by their index.
pub(crate) fn from_both_ends(most: u16, index: u16) -> i8
    requires few { most ≤ 31 }
    requires within { index < most + most }
    ensures { result ≡ from_both_ends most index }
{
    if index < most {
        index as i8 + 1
    } else {
        -((index - most) as i8 + 1)
    }
}
