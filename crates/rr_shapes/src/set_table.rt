// A table of time sets, on which several iterators draw.
ghost use Rattle.std.specs.Prelude.{◌≡◌, ◌<◌, [], IfOk, Some, get_or, length, slice_get, take};
ghost use Rattle.rr_times.specs.Combined.{IsDifferenceOf, IsUnionOf};
ghost use Rattle.rr_shapes.specs.Tables.{Extends};

use crate::ids::SetId;
use crate::pair_numbers::{Pair, PairNumbers};
use crate::time_sets::TimeSets;
use rr_model::NoMemory;
use rr_times::TimeSet;
use std::alloc::Global;
use std::marker::Model;

/// Distinct time sets by numbers, for iterators that give the same sets again and again. Nothing is refused here.
///
/// A set keeps its number, and which set is the union or the difference of two others is remembered by their numbers.
/// Contracts see it as the list of the sets, each a rising list, at its number.
#[derive(Drop)]
pub struct SetTable {
    sets: TimeSets,
    // Of two sets, the number of their union.
    unions: PairNumbers,
    // Of two sets, the number of what the second leaves of the first.
    differences: PairNumbers,
}

impl Model for SetTable {
    ghost use Rattle.std.specs.Prelude.{ℕ, List};
    ghost use Rattle.rr_shapes.specs.Tables.{IsTable};

    ghost Value = { List (List ℕ) };

    ghost view = { λ s. s.sets };

    ghost invariant = { λ s. IsTable s.sets s.unions s.differences };
}

impl SetTable {
    /// No sets yet; it takes no memory.
    pub fn new(alloc: Global) -> SetTable
        ensures { result ≡ [] }
    {
        SetTable {
            sets: TimeSets::new(alloc),
            unions: PairNumbers::new(alloc),
            differences: PairNumbers::new(alloc),
        }
    }

    /// The number of a set; one that has none yet gets the next number. Out of memory too, each set keeps its number.
    pub fn place(&mut self, times: TimeSet) -> Result<SetId, NoMemory>
        ensures placed { IfOk result (λ set. slice_get self.new set.index ≡ Some times) }
        ensures kept { Extends self.old self.new }
    {
        let index = self.sets.intern(times)?;
        Ok(SetId { index })
    }

    /// The seconds of the set that has this number, from 0 to 86,399, rising.
    pub fn times(&self, set: SetId) -> &TimeSet
        requires { set.index < length self.now }
        ensures { slice_get self.now set.index ≡ Some result.now }
    {
        self.sets.times(set.index)
    }

    /// The number of the set of the first `count` seconds of `set`; `set` itself if it has no more than `count`.
    #[inline(always)]
    pub fn prefix(&mut self, alloc: Global, set: SetId, count: usize) -> Result<SetId, NoMemory>
        requires { set.index < length self.old }
        ensures placed { IfOk result (λ first. slice_get self.new first.index
            ≡ Some (take count (get_or self.old set.index []))) }
        ensures kept { Extends self.old self.new }
    {
        let seconds = self.sets.times(set.index).as_slice();
        if seconds.len() <= count {
            return Ok(set);
        }
        let first = TimeSet::of(alloc, &seconds[..count])?;
        self.place(first)
    }

    /// The number of the union of two sets. It is made at the first question for the two in this order, and remembered.
    pub fn union(&mut self, alloc: Global, a: SetId, b: SetId) -> Result<SetId, NoMemory>
        requires a { a.index < length self.old }
        requires b { b.index < length self.old }
        ensures within { IfOk result (λ set. set.index < length self.new) }
        ensures union { IfOk result (λ set. IsUnionOf (get_or self.old a.index [])
            (get_or self.old b.index []) (get_or self.new set.index [])) }
        ensures kept { Extends self.old self.new }
    {
        let sets = &self.sets;
        if a.index == b.index {
            return Ok(a);
        }
        let pair = Pair {
            a: a.index,
            b: b.index,
        };
        if let Some(index) = self.unions.get(pair) {
            return Ok(SetId { index });
        }
        let both = TimeSet::union(alloc, sets.times(a.index), sets.times(b.index))?;
        let set = self.place(both)?;
        self.unions.put(pair, set.index)?;
        Ok(set)
    }

    /// The number of the set of the seconds that `a` has and `b` lacks. It is made at the first question for the two, and
    /// remembered.
    pub fn difference(&mut self, alloc: Global, a: SetId, b: SetId) -> Result<SetId, NoMemory>
        requires a { a.index < length self.old }
        requires b { b.index < length self.old }
        ensures within { IfOk result (λ set. set.index < length self.new) }
        ensures difference { IfOk result (λ set. IsDifferenceOf (get_or self.old a.index [])
            (get_or self.old b.index []) (get_or self.new set.index [])) }
        ensures kept { Extends self.old self.new }
    {
        let sets = &self.sets;
        let pair = Pair {
            a: a.index,
            b: b.index,
        };
        if let Some(index) = self.differences.get(pair) {
            return Ok(SetId { index });
        }
        let left = TimeSet::without(alloc, sets.times(a.index), sets.times(b.index))?;
        let set = self.place(left)?;
        self.differences.put(pair, set.index)?;
        Ok(set)
    }
}
