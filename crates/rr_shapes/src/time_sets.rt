// Time sets by numbers: here alone a set gets its number.
ghost use Rattle.std.specs.Prelude.{◌≡◌, ◌<◌, [], Contains, IfOk, IfNone, IfSome, IsTrue, OnErr, Some, length, slice_get, nat_eq};
ghost use Rattle.std.specs.Cmp.Lexicographic.{pointwise};

use indexmap::IndexSet;
use rr_model::NoMemory;
use rr_times::TimeSet;
use std::alloc::Global;
use std::marker::Model;

/// Distinct time sets, with numbers from 0 in the order of their first placing.
///
/// A set keeps its number, and none is ever taken out. Contracts see it as the list of the sets, each a rising list, at its number.
#[derive(Drop)]
pub struct TimeSets {
    sets: IndexSet<TimeSet>,
    // The number that was given last; days in a row mostly have the same set.
    last: usize,
}

impl Model for TimeSets {
    ghost use Rattle.std.specs.Prelude.{ℕ, List};
    ghost use Rattle.rr_shapes.specs.Numbering.{IsNumbering};

    ghost Value = { List (List ℕ) };

    ghost view = { λ s. s.sets.keys };

    ghost invariant = { λ s. IsNumbering s.sets.keys };
}

impl TimeSets {
    ghost use Rattle.rr_model.specs.Rising.Sets.{IsSecondsOfDay};
    ghost use Rattle.rr_shapes.specs.Numbering.{IsNumbering};
    ghost use Rattle.rr_shapes.specs.Placing.{IsPlaced};

    /// No sets yet; it takes no memory.
    pub fn new(alloc: Global) -> TimeSets
        ensures { result ≡ [] }
    {
        TimeSets {
            sets: IndexSet::new(alloc),
            last: 0,
        }
    }

    /// The number that was given or found last, if its set has these seconds; otherwise None, which says nothing. It takes no
    /// memory, and nothing is hashed.
    #[inline(always)]
    pub fn last_number(&self, times: &[u32]) -> Option<usize>
        ensures { IfSome result (λ n. slice_get self.now n ≡ Some times.now) }
    {
        if is_at(&self.sets, self.last, times) {
            return Some(self.last);
        }
        None
    }

    /// The number of a set; None exactly if it has none yet. It takes no memory.
    ///
    /// A set equal to the last one that was numbered or found is not hashed.
    #[inline(always)]
    pub fn find(&mut self, times: &TimeSet) -> Option<usize>
        ensures found { IfSome result (λ n. slice_get self.old n ≡ Some times.now) }
        ensures absent { IfNone result (¬ Contains self.old times.now) }
        ensures unchanged { self.new ≡ self.old }
    {
        if is_at(&self.sets, self.last, times.as_slice()) {
            return Some(self.last);
        }
        let number = self.sets.get_index_of(times)?;
        self.last = number;
        Some(number)
    }

    /// The number of a set; one that has none yet gets the next number. After an error all is as it was.
    ///
    /// A set equal to the last one that was numbered or found is not hashed.
    #[inline(always)]
    pub fn intern(&mut self, times: TimeSet) -> Result<usize, NoMemory>
        ensures placed { IfOk result (IsPlaced times self.old self.new) }
        ensures unchanged { OnErr result (self.new ≡ self.old) }
        ensures numbering { IsNumbering self.new }
    {
        if is_at(&self.sets, self.last, times.as_slice()) {
            return Ok(self.last);
        }
        self.insert(times)
    }

    /// The number of a set; one that has none yet gets the next number. After an error all is as it was.
    ///
    /// The set is hashed at once, and not compared with the last one first: for sets that are likely to be another.
    pub fn insert(&mut self, times: TimeSet) -> Result<usize, NoMemory>
        requires of_day { IsSecondsOfDay times }
        ensures placed { IfOk result (IsPlaced times self.old self.new) }
        ensures unchanged { OnErr result (self.new ≡ self.old) }
        ensures numbering { IsNumbering self.new }
    {
        let Ok((number, _)) = self.sets.insert_full(times) else {
            return Err(NoMemory);
        };
        self.last = number;
        Ok(number)
    }

    /// The set that has this number.
    pub fn times(&self, number: usize) -> &TimeSet
        requires { number < length self.now }
        ensures { slice_get self.now number ≡ Some result.now }
    {
        &self.sets[number]
    }

    /// How many sets have a number: the number that the next one gets.
    pub fn count(&self) -> usize
        ensures { result ≡ length self.now }
    {
        self.sets.len()
    }
}

// Whether the set of this number has these seconds.
#[inline(always)]
fn is_at(sets: &IndexSet<TimeSet>, number: usize, times: &[u32]) -> bool
    ensures { IsTrue result → slice_get sets.now.keys number ≡ Some times.now }
{
    match sets.get_index(number) {
        Some(set) => set.as_slice() == times,
        None => false,
    }
}
