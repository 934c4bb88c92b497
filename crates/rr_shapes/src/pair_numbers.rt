// Numbers by pairs of numbers: the one memo of which set is made of which two.
ghost use Rattle.std.specs.Prelude.{◌≡◌, ◌<◌, [], Contains, IfNone, IfSome, OnErr, OnOk};
ghost use Rattle.rr_shapes.specs.Slots.{IsKept, slot_of};
ghost use Rattle.rr_shapes.specs.Tables.{AddsOnly, IsUnknown, KeepsOthers};

use indexmap::IndexMap;
use rr_model::NoMemory;
use std::alloc::Global;
use std::marker::Model;

// How many slots there are, so that sets which take turns are found at once.
const SLOTS: usize = 128;

/// The numbers of two sets, in the order of the question: of one list, or each of a list of its own. The caller knows which.
#[derive(Clone, Copy, PartialEq, Eq, Hash)]
pub struct Pair {
    /// The number of the first set.
    pub a: usize,
    /// The number of the second set.
    pub b: usize,
}

/// The numbers of sets by the numbers of the two sets that each is made of, such as their union. What was put stays known, and
/// each pair has one number. Contracts see it as the list of the pairs with their numbers.
#[derive(Drop)]
pub struct PairNumbers {
    known: IndexMap<Pair, usize>,
    // Some of them again: in the slot of a pair the last one that was put or found, if there are slots.
    slots: Vec<(Pair, usize)>,
}

impl Model for PairNumbers {
    ghost use Rattle.std.specs.Prelude.{ℕ, List};
    ghost use Rattle.rr_shapes.specs.Slots.{AreKnownInSlots};
    ghost use Rattle.rr_shapes.specs.declared.pair_numbers.Pair.{Pair};

    ghost Value = { List (Pair × ℕ) };

    ghost view = { λ u. u.known.entries };

    ghost invariant = { λ u. AreKnownInSlots u.known.entries u.slots.items };
}

// The slot of a pair. Pairs with one number in common have different slots, as long as there are enough.
#[inline(always)]
fn slot_of(pair: Pair) -> usize
    ensures slot { result ≡ slot_of pair }
    ensures within { result < 128 }
{
    (pair.a % SLOTS + 10 * (pair.b % SLOTS)) % SLOTS
}

// Keeps a pair with its number in its slot. Without memory there are no slots, and nothing is kept.
fn keep(slots: &mut Vec<(Pair, usize)>, pair: Pair, number: usize)
    ensures { IsKept slots.old.items slots.new.items (pair, number) }
{
    let slot = slot_of(pair);
    if slot < slots.len() {
        slots[slot] = (pair, number);
    } else {
        let _ = slots.resize(SLOTS, (pair, number));
    }
}

impl PairNumbers {
    /// No pair is known yet; it takes no memory.
    pub fn new(alloc: Global) -> PairNumbers
        ensures { result ≡ [] }
    {
        PairNumbers {
            known: IndexMap::new(alloc),
            slots: Vec::new(alloc),
        }
    }

    /// The number of a pair; None exactly if none is known. A pair that takes turns with few others is found in its slot, and
    /// is not hashed.
    pub fn get(&mut self, pair: Pair) -> Option<usize>
        ensures known { IfSome result (λ n. Contains self.old (pair, n)) }
        ensures unknown { IfNone result (IsUnknown self.old pair) }
        ensures unchanged { self.new ≡ self.old }
    {
        if let Some((known, number)) = self.slots.get(slot_of(pair)) {
            if *known == pair {
                return Some(*number);
            }
        }
        let (_, _, number) = self.known.get_full(&pair)?;
        let number = *number;
        keep(&mut self.slots, pair, number);
        Some(number)
    }

    /// Remembers the number of a pair, in place of the one that it has, if any. Out of memory, all is as it was.
    pub fn put(&mut self, pair: Pair, number: usize) -> Result<(), NoMemory>
        ensures there { OnOk result (Contains self.new (pair, number)) }
        ensures nothing_else { AddsOnly self.old self.new (pair, number) }
        ensures kept { KeepsOthers self.old self.new pair }
        ensures unchanged { OnErr result (self.new ≡ self.old) }
    {
        let Ok(_) = self.known.insert(pair, number) else {
            return Err(NoMemory);
        };
        keep(&mut self.slots, pair, number);
        Ok(())
    }
}
