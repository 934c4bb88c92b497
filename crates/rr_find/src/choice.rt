// Which items a kind of rule takes, by how many days of each sort a window has.
ghost use Rattle.std.specs.Prelude.{◌≡◌, ◌==◌, ◌↔◌, ◌≤◌, ◌<◌, IsTrue, IfOk, if◌then◌else◌, length, get_or, ℕ};
ghost use Rattle.rr_family.specs.Sorts.{has_sort, many_sorts};
ghost use Rattle.rr_find.specs.ByCounts.{AreTaken, IsClear, IsTakenFrom, best_index, days_of_item, gain_of_item};
ghost use Rattle.rr_find.specs.Counted.{HasFewDays, count_in};

use crate::tallies::Counts;
use rr_family::{has_sort, item_at, many_items, many_sorts};
use rr_model::{FamilyKind, Items, NoMemory};
use std::alloc::Global;

/// The items that are taken, or none if they do not have all occupied days.
///
/// Again and again the item is taken that has no free day and most occupied days that no taken item has, the first of
/// them on a tie, until none has a further day.
pub(crate) fn taken_items(
    alloc: Global,
    kind: FamilyKind,
    counts: &Counts,
) -> Result<Option<Items>, NoMemory>
    requires few { HasFewDays counts.now.occupied }
    requires free_few { HasFewDays counts.now.free }
    ensures { IfOk result
        (AreTaken kind (count_in counts.now.occupied) (count_in counts.now.free)) }
{
    let mut left = counts.occupied;
    let mut items = Items::new(alloc);
    while let Some(index) = best_index(kind, &left, &counts.free) {
        items.put(item_at(kind, index))?;
        take_item(kind, index, &mut left);
    }
    if is_clear(kind, &left) {
        Ok(Some(items))
    } else {
        Ok(None)
    }
}

// The index of the item that adds most, the first of them on a tie; none if no item adds a day.
fn best_index(kind: FamilyKind, left: &[u64], free: &[u64]) -> Option<u16>
    requires sorts { many_sorts kind ≤ length left.now }
    requires free_sorts { many_sorts kind ≤ length free.now }
    requires few { HasFewDays left.now }
    requires free_few { HasFewDays free.now }
    ensures { result ≡ best_index kind (count_in left.now) (count_in free.now) }
{
    let mut best = None;
    let mut most = 0;
    for index in 0..many_items(kind) {
        let days = gain_of_item(kind, left, free, index);
        if days > most {
            best = Some(index);
            most = days;
        }
    }
    best
}

// How many days an item adds; none if one of its sorts has a free day.
fn gain_of_item(kind: FamilyKind, left: &[u64], free: &[u64], index: u16) -> u64
    requires index { index < 366 }
    requires sorts { many_sorts kind ≤ length left.now }
    requires free_sorts { many_sorts kind ≤ length free.now }
    requires few { HasFewDays left.now }
    requires free_few { HasFewDays free.now }
    ensures { result ≡ gain_of_item kind (count_in left.now) (count_in free.now) index }
{
    if days_of_item(kind, free, index) == 0 {
        days_of_item(kind, left, index)
    } else {
        0
    }
}

// How many days the sorts of an item have.
fn days_of_item(kind: FamilyKind, counts: &[u64], index: u16) -> u64
    requires index { index < 366 }
    requires sorts { many_sorts kind ≤ length counts.now }
    requires few { HasFewDays counts.now }
    ensures { result ≡ days_of_item kind (count_in counts.now) index }
{
    if has_own_sorts(kind) {
        return days_of_own_sort(kind, counts, index);
    }
    days_of_sorts(kind, counts, index)
}

// Whether each item of the kind has the sort of its own index alone.
fn has_own_sorts(kind: FamilyKind) -> bool
    ensures { IsTrue result → (sort index : ℕ) → has_sort kind sort index ≡ (index == sort) }
{
    matches!(kind, FamilyKind::W | FamilyKind::YM | FamilyKind::YD)
}

// How many days the one sort of an item has, if each item has that of its own index alone.
fn days_of_own_sort(kind: FamilyKind, counts: &[u64], index: u16) -> u64
    requires own { (sort index : ℕ) → has_sort kind sort index ≡ (index == sort) }
    requires sorts { many_sorts kind ≤ length counts.now }
    ensures { result ≡ days_of_item kind (count_in counts.now) index }
{
    if index < many_sorts(kind) {
        counts[usize::from(index)]
    } else {
        0
    }
}

// How many days the sorts of an item have, sort by sort.
fn days_of_sorts(kind: FamilyKind, counts: &[u64], index: u16) -> u64
    requires index { index < 366 }
    requires sorts { many_sorts kind ≤ length counts.now }
    requires few { HasFewDays counts.now }
    ensures { result ≡ days_of_item kind (count_in counts.now) index }
{
    let mut days = 0;
    for sort in 0..many_sorts(kind) {
        days += days_of_sort(kind, counts, index, sort);
    }
    days
}

// How many days of a sort an item has.
fn days_of_sort(kind: FamilyKind, counts: &[u64], index: u16, sort: u16) -> u64
    requires index { index < 366 }
    requires sort { sort < many_sorts kind }
    requires sorts { many_sorts kind ≤ length counts.now }
    ensures { result ≡ if has_sort kind sort index then get_or counts.now sort 0 else 0 }
{
    if has_sort(kind, sort, index) {
        counts[usize::from(sort)]
    } else {
        0
    }
}

// No days are left of the sorts that an item has.
fn take_item(kind: FamilyKind, index: u16, left: &mut [u64])
    requires index { index < 366 }
    requires sorts { many_sorts kind ≤ length left.old }
    requires few { HasFewDays left.old }
    ensures length { length left.new ≡ length left.old }
    ensures taken { IsTakenFrom kind index (count_in left.old) (count_in left.new) }
    ensures few { HasFewDays left.new }
{
    for sort in 0..many_sorts(kind) {
        if has_sort(kind, sort, index) {
            left[usize::from(sort)] = 0;
        }
    }
}

// Whether no sort has a day left.
fn is_clear(kind: FamilyKind, left: &[u64]) -> bool
    requires sorts { many_sorts kind ≤ length left.now }
    ensures { IsTrue result ↔ IsClear kind (count_in left.now) }
{
    for sort in 0..many_sorts(kind) {
        if left[usize::from(sort)] != 0 {
            return false;
        }
    }
    true
}
