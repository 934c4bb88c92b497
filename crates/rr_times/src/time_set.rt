// A set of seconds of a day, and the operations on such sets.
ghost use Rattle.std.specs.Prelude.{◌≡◌, ◌≢◌, ◌<◌, ◌≤◌, ◌+◌, Contains, IfOk, count_by, length, nat_eq, nat_lt, slice_get};
ghost use Rattle.std.proofs.Common.{rules};
ghost use Rattle.std.specs.Cmp.Lexicographic.{pointwise};
ghost use Rattle.std.proofs.lemmas.Cmp.{nat_list_eq_equiv};
ghost use Rattle.std.specs.Cmp.{partial_equiv_from_equiv};
ghost use Rattle.std.specs.Cmp.Rules.{hashing};
ghost use Rattle.std.specs.Hash as fed;
ghost use Rattle.rr_model.specs.Rising.Sets.{IsSetOf, IsSecondsOfDay};
ghost use Rattle.rr_times.specs.Combined.{IsCutOf, IsDifferenceOf, IsUnionOf};
ghost use Rattle.rr_times.specs.Items.{item_at, stretch_of};

use crate::merge::{difference_of, union_of};
use crate::rank::count_below;
use crate::stretch::{Stretch, first_stretch};
use rr_model::NoMemory;
use std::alloc::Global;
use std::hash::{Hash, Hasher};
use std::marker::Model;

/// A set of seconds of a day, each from 0 to 86,399, counted from midnight.
///
/// Contracts see it as the rising list of its seconds. Two sets are equal exactly if they have the
/// same seconds, so a set can be a key of a map.
#[derive(Drop)]
pub struct TimeSet {
    seconds: Vec<u32>,
}

impl Model for TimeSet {
    ghost use Rattle.std.specs.Prelude.{List, ℕ};
    ghost use Rattle.rr_model.specs.Rising.Sets.{IsSecondsOfDay};

    ghost Value = { List ℕ };

    ghost view = { λ t. t.seconds.items };

    ghost invariant = { λ t. IsSecondsOfDay t.seconds.items };
}

impl TimeSet {
    /// The set of these seconds.
    pub fn of(alloc: Global, seconds: &[u32]) -> Result<TimeSet, NoMemory>
        requires { IsSecondsOfDay seconds.now }
        ensures { IfOk result (λ t. t ≡ seconds.now) }
    {
        Ok(TimeSet {
            seconds: Vec::from_slice(alloc, seconds)?,
        })
    }

    /// The seconds of either set.
    pub fn union(alloc: Global, a: &TimeSet, b: &TimeSet) -> Result<TimeSet, NoMemory>
        ensures { IfOk result (λ t. IsUnionOf a.now b.now t) }
    {
        Ok(TimeSet {
            seconds: union_of(alloc, a.as_slice(), b.as_slice())?,
        })
    }

    /// The seconds of `a` that `b` lacks.
    pub fn without(alloc: Global, a: &TimeSet, b: &TimeSet) -> Result<TimeSet, NoMemory>
        ensures { IfOk result (λ t. IsDifferenceOf a.now b.now t) }
    {
        Ok(TimeSet {
            seconds: difference_of(alloc, a.as_slice(), b.as_slice())?,
        })
    }

    /// The seconds of `a` from `from` on and below `to`; none if `to` is not above `from`.
    pub fn cut(alloc: Global, a: &TimeSet, from: u32, to: u32) -> Result<TimeSet, NoMemory>
        ensures { IfOk result (λ t. IsCutOf a.now from to t) }
    {
        let seconds = a.as_slice();
        let start = count_below(seconds, from);
        let end = count_below(seconds, to).max(start);
        Ok(TimeSet {
            seconds: Vec::from_slice(alloc, &seconds[start..end])?,
        })
    }

    /// How many of the set's seconds lie below `second`, by binary search.
    pub fn rank(&self, second: u32) -> u32
        ensures { result ≡ count_by (λ s. nat_lt s second) self.now }
    {
        count_below(self.as_slice(), second) as u32
    }

    /// The second of rank `place`, counted from 0; none exactly if there are at most `place`.
    pub fn select(&self, place: u32) -> Option<u32>
        ensures { result ≡ slice_get self.now place }
    {
        self.seconds.as_slice().get(place as usize).copied()
    }

    /// The item that begins at the index `from`, counted from 0: a row of three or more seconds with equal steps from
    /// there on, or the second alone. It takes no memory.
    pub fn stretch(&self, from: usize) -> Stretch
        requires within { from < length self.now }
        ensures item { stretch_of result ≡ item_at self.now from }
        ensures some { 1 ≤ result.count }
        ensures few { from + result.count ≤ length self.now }
    {
        first_stretch(self.as_slice(), from)
    }

    /// Takes one second out, if the set has it; it takes no memory.
    pub fn remove(&mut self, second: u32)
        ensures { IsSetOf nat_lt self.new (λ s. Contains self.old s × (s ≢ second)) }
    {
        let index = count_below(self.seconds.as_slice(), second);
        if index < self.seconds.len() && self.seconds[index] == second {
            self.seconds.remove(index);
        }
    }

    /// The seconds of the day, from the least to the greatest.
    pub fn as_slice(&self) -> &[u32]
        ensures same { result.now ≡ self.now }
        ensures of_day { IsSecondsOfDay self.now }
    {
        self.seconds.as_slice()
    }
}

impl PartialEq for TimeSet {
    ghost eq = { pointwise nat_eq };

    ghost laws = { partial_equiv_from_equiv nat_list_eq_equiv };

    fn eq(&self, other: &TimeSet) -> bool {
        self.seconds.as_slice() == other.seconds.as_slice()
    }
}

impl Eq for TimeSet {
    ghost laws = { nat_list_eq_equiv };
}

impl Hash for TimeSet {
    ghost hash_input = { fed.slice fed.u32 };

    ghost respects_eq = { Prim.search (hashing, rules) };

    fn hash<H: Hasher>(&self, state: &mut H) {
        self.seconds.as_slice().hash(state);
    }
}
