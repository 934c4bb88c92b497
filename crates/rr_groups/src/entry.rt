// The events of both calendars, sorted by their keys.
ghost use Rattle.std.specs.Prelude.{◌≡◌, ◌++◌, length, take_while, IfOk, OnOk};
ghost use Rattle.rr_groups.specs.Entries.{IsSortedOf, entries_from, entries_of, has_key, indexes_in, is_of_a};

use rr_model::{NoMemory, Side};
use rr_seam::{Key, compare_keys, copy_key};
use std::alloc::Global;

/// An event of one of the two calendars.
#[derive(Drop)]
pub struct Entry {
    /// What it is found again by.
    pub key: Key,
    /// Whether it is of calendar A or of calendar B.
    pub side: Side,
    /// Its index in its calendar.
    pub index: usize,
}

// Puts the events of one calendar.
fn put_entries(
    alloc: Global,
    side: Side,
    keys: &[Key],
    entries: &mut Vec<Entry>,
) -> Result<(), NoMemory>
    ensures { OnOk result (entries.new.items
        ≡ entries.old.items ++ entries_from side 0 keys.now) }
{
    for index in 0..keys.len() {
        let key = copy_key(alloc, &keys[index])?;
        entries.push(Entry { key, side, index })?;
    }
    Ok(())
}

/// The events of A and then those of B, sorted by their keys; those of one key stay in this order.
pub fn sorted_entries(alloc: Global, a: &[Key], b: &[Key]) -> Result<Vec<Entry>, NoMemory>
    ensures { IfOk result (λ entries. IsSortedOf (entries_of a.now b.now) entries.items) }
{
    let mut entries = Vec::new(alloc);
    put_entries(alloc, Side::A, a, &mut entries)?;
    put_entries(alloc, Side::B, b, &mut entries)?;
    entries.sort_by(|x, y| compare_keys(&x.key, &y.key))?;
    Ok(entries)
}

/// How many of the entries at the front have this key, before the first that has another.
pub fn count_of_key(key: &Key, entries: &[Entry]) -> usize
    ensures { result ≡ length (take_while (has_key key.now) entries.now) }
{
    entries
        .iter()
        .take_while(|entry| compare_keys(&entry.key, key).is_eq())
        .count()
}

/// How many of the entries at the front are of A, before the first of B.
pub fn count_of_a(entries: &[Entry]) -> usize
    ensures { result ≡ length (take_while is_of_a entries.now) }
{
    entries
        .iter()
        .take_while(|entry| entry.side == Side::A)
        .count()
}

/// The index of each entry in its calendar, in the order of the entries.
pub fn entry_indexes(alloc: Global, entries: &[Entry]) -> Result<Vec<usize>, NoMemory>
    ensures { IfOk result (λ indexes. indexes.items ≡ indexes_in entries.now) }
{
    let mut indexes = Vec::new(alloc);
    for entry in entries {
        indexes.push(entry.index)?;
    }
    Ok(indexes)
}
