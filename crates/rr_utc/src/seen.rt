// Days of UTC that were found to be equal, by what is about them.
ghost use Rattle.std.specs.Prelude.{◌<◌, ◌⊎◌, ◌≡◌, IsTrue};
ghost use Rattle.rr_utc.specs.Seen.{IsSeen};
ghost use Rattle.rr_utc.specs.declared.about.About.{About};

use crate::about::{About, Numbers};

// The number of slots, a prime, so that offsets of whole hours are spread over them.
const SLOTS: usize = 127;

/// What was about days that were found to be equal: in each of 127 slots what was put there last. It takes no memory.
#[derive(Drop)]
pub struct Seen {
    slots: [Option<About>; 127],
}

impl Seen {
    /// A memory in which nothing is remembered yet.
    pub fn new() -> Seen
        ensures { (about : About) → IsSeen result about → ⊥ }
    {
        Seen {
            slots: [None; SLOTS],
        }
    }

    /// Whether this is remembered; false may come of what was, since another of its slot takes its place.
    pub fn has(&self, about: About) -> bool
        ensures { IsTrue result → IsSeen self.now about }
    {
        match self.slots[index_of(about)] {
            None => false,
            Some(other) => other == about,
        }
    }

    /// Remembers this, instead of what its slot remembered before.
    pub fn put(&mut self, about: About)
        ensures { (other : About) → IsSeen self.new other → IsSeen self.old other ⊎ (other ≡ about) }
    {
        self.slots[index_of(about)] = Some(about);
    }
}

// A number that tells a set by its number from no set.
fn past_none(number: Option<u32>) -> u64
    ensures { result < 4_294_967_297 }
{
    match number {
        None => 0,
        Some(number) => 1 + u64::from(number),
    }
}

// A number that mostly differs for other numbers.
fn mixed(numbers: Numbers) -> u64
    ensures { result < 1_000_000_000_000 }
{
    past_none(numbers.before) + 3 * past_none(numbers.on) + 7 * past_none(numbers.after)
}

// The slot of what is about a day.
fn index_of(about: About) -> usize
    ensures { result < 127 }
{
    let ahead = (i64::from(about.ahead_a) + 5 * i64::from(about.ahead_b)).rem_euclid(127);
    ((mixed(about.a) + 31 * mixed(about.b) + ahead as u64) % 127) as usize
}
