// Days with how many occurrences come before each, read in counted steps.
ghost use Rattle.std.specs.Prelude.{◌≡◌, [], ◌∷◌, ◌++◌, ◌+◌, ◌<◌, OnOk, OnErr, Some, length, slice_get};

use rr_model::NoMemory;
use rr_steps::Steps;
use std::alloc::Global;
use std::marker::{Model, PhantomData};
use std::sync::ledger::Ledger;

/// A day, and how many occurrences come before it.
#[derive(Clone, Copy)]
pub struct Entry {
    /// The day number, counted from 1970-01-01.
    pub day: i64,
    /// How many occurrences come before that day.
    pub before: u64,
}

/// Days with how many occurrences come before them, in the order in which they were put; each reading is one step of their ledger.
#[derive(Drop)]
pub struct Sums<L: Ledger> {
    entries: Vec<Entry>,
    ledger: PhantomData<L>,
}

impl<L: Ledger> Model for Sums<L> {
    ghost use Rattle.std.specs.Prelude.{List};
    ghost use Rattle.rr_rank.specs.declared.sums.Entry.{Entry};

    ghost Value = { List Entry };

    ghost view = { λ s. s.entries.items };
}

impl<L: Ledger> Sums<L> {
    ghost use Rattle.rr_rank.specs.declared.sums.Entry.{Entry};

    /// A list without entries; it takes no memory.
    pub fn new(alloc: Global) -> Self
        ensures { result ≡ [] }
    {
        Sums {
            entries: Vec::new(alloc),
            ledger: PhantomData,
        }
    }

    /// How many entries there are.
    pub fn length(&self) -> u64
        ensures { result ≡ length self.now }
    {
        self.entries.len() as u64
    }

    /// Puts an entry at the end; nothing changes if there is no memory for it.
    pub fn put(&mut self, entry: Entry) -> Result<(), NoMemory>
        ensures ok { OnOk result (self.new ≡ self.old ++ entry ∷ []) }
        ensures err { OnErr result (self.new ≡ self.old) }
    {
        self.entries.push(entry)?;
        Ok(())
    }

    /// The entry at a place, in one step. It takes no memory.
    pub fn read(&self, place: u64, steps: &mut Steps<L>) -> Entry
        requires { place < length self.now }
        ensures value { slice_get self.now place ≡ Some result }
        ensures step { steps.new ≡ steps.old + 1 }
    {
        steps.tick();
        self.entries[place as usize]
    }
}
