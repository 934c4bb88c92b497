// The sorts of days that each kind of rule tells apart.
ghost use Rattle.std.specs.Prelude.{◌≡◌, ◌≤◌, ◌<◌, ◌+◌, ◌-◌, ◌/◌, ◌%◌, ◌-ℤ◌};
ghost use Rattle.rr_family.specs.Sorts.{days_in_month_of, has_sort, many_sorts, month_day_sort, place_sort, sort_in_unit, sort_of_day};
ghost use Rattle.rr_model.specs.Calendar.{day_of_month, day_of_year, weekday_of};
ghost use Rattle.rr_model.specs.Vcal.Members.{family_unit};
ghost use Rattle.rr_model.specs.Whole.{divides};
ghost use Rattle.rr_model.specs.declared.vcal.FamilyKind.TheVariants.{YM};

use rr_cal::{Day, month_number, week_index};
use rr_model::FamilyKind;
use rr_num::is_congruent;

/// How many sorts of days a kind of rule tells apart.
///
/// Two days of one sort are in the same items: by the weekday for W, by the number from both ends of the month for MD,
/// by the weekday and its places from both ends for MP, by the month for YM, by the day of the year for YD.
pub fn many_sorts(kind: FamilyKind) -> u16
    ensures value { result ≡ many_sorts kind }
    ensures few { result ≤ 366 }
{
    match kind {
        FamilyKind::D => 1,
        FamilyKind::W => 7,
        FamilyKind::MD => 124,
        FamilyKind::MP => 175,
        FamilyKind::YM => 12,
        FamilyKind::YD => 366,
    }
}

/// The sort of a day if a series of this kind and interval starts on the day `start`, numbered from 0.
///
/// None if no item has the day: its week, month or year does not count, or for YM its day of the month is not the
/// start's.
pub fn sort_of_day(kind: FamilyKind, interval: u32, start: &Day, day: &Day) -> Option<u16>
    requires some { 1 ≤ interval }
    ensures { result ≡ sort_of_day kind interval start.now.number day.now.number }
{
    if unit_counts(kind, interval, start, day) {
        sort_in_unit(kind, start, day)
    } else {
        None
    }
}

// Whether the unit of a day counts; at interval 1 each does, and no unit is computed.
fn unit_counts(kind: FamilyKind, interval: u32, start: &Day, day: &Day) -> bool
    requires { 1 ≤ interval }
    ensures { result
        ≡ divides interval (family_unit kind day.now.number -ℤ family_unit kind start.now.number) }
{
    if interval == 1 {
        return true;
    }
    is_congruent(unit_of(kind, start), unit_of(kind, day), interval)
}

// The number of the day, week, month or year in which a day lies, by the kind; weeks begin on Monday.
fn unit_of(kind: FamilyKind, day: &Day) -> i64
    ensures { result ≡ family_unit kind day.now.number }
{
    match kind {
        FamilyKind::D => day.number,
        FamilyKind::W => week_index(day.number, 0),
        FamilyKind::MD | FamilyKind::MP => month_number(day),
        FamilyKind::YM | FamilyKind::YD => day.year,
    }
}

// The sort of a day whose unit counts.
fn sort_in_unit(kind: FamilyKind, start: &Day, day: &Day) -> Option<u16>
    ensures { result ≡ sort_in_unit kind start.now.number day.now.number }
{
    match kind {
        FamilyKind::D => Some(0),
        FamilyKind::W => Some(u16::from(day.weekday)),
        FamilyKind::MD => Some(month_day_sort(day)),
        FamilyKind::MP => Some(place_sort(day)),
        FamilyKind::YM => month_sort(start, day),
        FamilyKind::YD => Some(year_day_sort(day)),
    }
}

// The day's number in its month and the month's length.
fn month_day_sort(day: &Day) -> u16
    ensures { result
        ≡ month_day_sort (day_of_month day.now.number) (days_in_month_of day.now.number) }
{
    month_day_sort_of(u16::from(day.day_of_month), u16::from(day.days_in_month))
}

fn month_day_sort_of(k: u16, many: u16) -> u16
    requires low { 1 ≤ k }
    requires high { k ≤ many }
    requires most { many ≤ 31 }
    requires least { 28 ≤ many }
    ensures { result ≡ month_day_sort k many }
{
    (k - 1) * 4 + (many - 28)
}

// The sort of a day by its weekday's rank in the month from the front and from the back, and by the weekday.
fn place_sort(day: &Day) -> u16
    ensures { result
        ≡ place_sort (day_of_month day.now.number) (days_in_month_of day.now.number)
        (weekday_of day.now.number) }
{
    place_sort_of(
        u16::from(day.day_of_month),
        u16::from(day.days_in_month),
        u16::from(day.weekday),
    )
}

fn place_sort_of(k: u16, many: u16, weekday: u16) -> u16
    requires low { 1 ≤ k }
    requires high { k ≤ many }
    requires most { many ≤ 31 }
    requires weekday { weekday < 7 }
    ensures { result ≡ place_sort k many weekday }
{
    ((k - 1) / 7 * 5 + (many - k) / 7) * 7 + weekday
}

// The month, if the day has the start's number in it.
fn month_sort(start: &Day, day: &Day) -> Option<u16>
    ensures { result ≡ sort_in_unit YM start.now.number day.now.number }
{
    if day.day_of_month == start.day_of_month {
        Some(u16::from(day.month) - 1)
    } else {
        None
    }
}

// The day's index in its year, from 0.
fn year_day_sort(day: &Day) -> u16
    ensures { result ≡ day_of_year day.now.number - 1 }
{
    day.day_of_year - 1
}

/// Whether the item at an index has the days of a sort.
pub fn has_sort(kind: FamilyKind, sort: u16, index: u16) -> bool
    requires sort { sort < many_sorts kind }
    requires index { index < 366 }
    ensures { result ≡ has_sort kind sort index }
{
    match kind {
        FamilyKind::D => true,
        FamilyKind::W | FamilyKind::YM | FamilyKind::YD => index == sort,
        FamilyKind::MD => index == sort / 4 || index == 31 + month_rest(sort),
        FamilyKind::MP => {
            index % 7 == sort % 7 && (index / 7 == sort / 35 || index / 7 == 5 + sort / 7 % 5)
        }
    }
}

// How many days of the month follow those of a sort.
fn month_rest(sort: u16) -> u16
    requires { sort < 124 }
    ensures { result ≡ sort % 4 + 27 - sort / 4 }
{
    (sort % 4 + 27).saturating_sub(sort / 4)
}
