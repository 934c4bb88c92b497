// The events of two calendars, key by key.
ghost use Rattle.std.specs.Prelude.{◌≡◌, [], IfOk, MatchOption};
ghost use Rattle.rr_groups.specs.Groups.{AreGroups};
ghost use Rattle.rr_groups.specs.Runs.{AreGroupsOf, IsGroupOf, IsRunAt};

use crate::entry::{Entry, count_of_a, count_of_key, entry_indexes, sorted_entries};
use rr_model::NoMemory;
use rr_seam::{Key, copy_key};
use std::alloc::Global;

/// The events of one key, by their indexes in two lists of keys.
#[derive(Drop)]
pub struct Group {
    /// The key that all these events have.
    pub key: Key,
    /// The indexes in A, in their order.
    pub a: Vec<usize>,
    /// The indexes in B, in their order.
    pub b: Vec<usize>,
}

// The entries at the front that have the key of the first.
#[derive(Clone, Copy)]
struct Run<'a> {
    first: &'a Entry,
    entries: &'a [Entry],
}

// The first run of sorted entries.
fn first_run(entries: &[Entry]) -> Option<Run<'_>>
    ensures { MatchOption result (entries.now ≡ [])
        (λ run. IsRunAt entries.now run.first.now run.entries.now) }
{
    let first = entries.first()?;
    let count = count_of_key(&first.key, entries);
    Some(Run {
        first,
        entries: &entries[..count],
    })
}

// The group of a run, whose entries of A come first.
fn group_of_run(alloc: Global, run: Run<'_>) -> Result<Group, NoMemory>
    ensures { IfOk result (IsGroupOf run.entry.first.now.key run.entry.entries.now) }
{
    let (of_a, of_b) = run.entries.split_at(count_of_a(run.entries));
    let key = copy_key(alloc, &run.first.key)?;
    let a = entry_indexes(alloc, of_a)?;
    let b = entry_indexes(alloc, of_b)?;
    Ok(Group { key, a, b })
}

// The groups of sorted entries.
fn groups_of_entries(alloc: Global, entries: &[Entry]) -> Result<Vec<Group>, NoMemory>
    ensures { IfOk result (λ groups. AreGroupsOf entries.now groups.items) }
{
    let mut groups = Vec::new(alloc);
    let mut start = 0;
    while let Some(run) = first_run(&entries[start..]) {
        groups.push(group_of_run(alloc, run)?)?;
        start += run.entries.len();
    }
    Ok(groups)
}

/// The events of two calendars by their keys: each key of either has one group, in the order of the keys. For n keys it takes a multiple
/// of n log n comparisons of keys.
pub fn groups_of(alloc: Global, a: &[Key], b: &[Key]) -> Result<Vec<Group>, NoMemory>
    ensures { IfOk result (λ groups. AreGroups a.now b.now groups.items) }
{
    let entries = sorted_entries(alloc, a, b)?;
    groups_of_entries(alloc, &entries)
}
