// A binary search among days and counts.
ghost use Rattle.std.specs.Prelude.{◌≡◌, ◌-◌, ◌*◌, ◌^◌, ◌<◌, ◌≤◌, ℕ, true, false, length};
ghost use Rattle.rr_rank.specs.Search.{IsSortedBy, entry_at, is_below};

use crate::sums::{Entry, Sums};
use rr_steps::Steps;
use std::sync::ledger::Ledger;

/// What is sought among the entries.
#[derive(Clone, Copy)]
pub enum Key {
    /// The first entry of this day or a later one.
    Day(i64),
    /// The first entry with at least this number of occurrences before it.
    Before(u64),
}

impl Key {
    // Whether an entry comes before what is sought.
    fn is_below(self, entry: Entry) -> bool
        ensures { result ≡ is_below self entry }
    {
        match self {
            Key::Day(day) => entry.day < day,
            Key::Before(count) => entry.before < count,
        }
    }
}

/// The first index whose entry does not come before what is sought, or the number of entries if there is none.
pub fn first_index<L: Ledger>(sums: &Sums<L>, key: Key, steps: &mut Steps<L>) -> u64
    requires some { 1 ≤ length sums.now }
    requires sorted { IsSortedBy key sums.now }
    ensures within { result ≤ length sums.now }
    ensures below { (i : ℕ) → i < result → is_below key (entry_at sums.now i) ≡ true }
    ensures from { (i : ℕ) → result ≤ i → i < length sums.now
        → is_below key (entry_at sums.now i) ≡ false }
    ensures cost { 2 ^ (steps.new - steps.old) ≤ 2 * length sums.now }
    ensures more { steps.old ≤ steps.new }
{
    let mut low = 0;
    let mut high = sums.length();
    while low < high {
        let middle = low + (high - low) / 2;
        if key.is_below(sums.read(middle, steps)) {
            low = middle + 1;
        } else {
            high = middle;
        }
    }
    low
}
