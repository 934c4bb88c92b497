// The occurrences of several parts.
ghost use Rattle.std.specs.Prelude.{◌≡◌, ◌⊎◌, ◌≤◌, ◌<◌, All, IfOk, IsTrue, OnOk, OnErr, length, nat_lt, pos, ◌+ℤ◌, ◌≤ℤ◌, ◌<ℤ◌, []};
ghost use Rattle.std.specs.Option.{ForNone, ForSome};
ghost use Rattle.rr_model.specs.Bounds.{earliest_day, latest_day};
ghost use Rattle.rr_model.specs.Calendar.{first_day_of_year};
ghost use Rattle.rr_model.specs.Rising.Sets.{IsSetOf};
ghost use Rattle.rr_model.proofs.TreeLemmas.{IsOfOneKind-prop};
ghost use Rattle.rr_model.specs.Sets.Tree.{IsOfOneKind, many};
ghost use Rattle.rr_lazy.specs.Next.{IsNextIn, IsUnasked, KnowsEach, KnowsIfBoth};
ghost use Rattle.rr_shapes.specs.Tables.{Extends};
ghost use Rattle.rr_lazy.specs.Ahead.{GaveDay, IsAheadIn, IsGivenOn, day_seen};
ghost use Rattle.rr_lazy.specs.Many.{forest_of, HaveForgotten, IsGivenBySome, GaveDaySome, StayWithin};
ghost use Rattle.rr_lazy.specs.Parts.{KnowsEachPart};
ghost use Rattle.rr_lazy.specs.PassedOn.{IsOneAtRest};

use crate::ahead::{LazyPart, fill, forget, on_day};
use crate::position::{position_after, position_past};
use crate::{Lazy, OccupiedDay};
use rr_model::{FIRST_DAY, NoMemory};
use rr_shapes::SetTable;
use std::alloc::Global;

/// The days of several parts.
#[derive(Drop)]
pub struct Many<A: Lazy + Drop> {
    parts: Vec<LazyPart<A>>,
    position: i64,
    ghost begun: { first_day_of_year (pos 1) ≤ℤ position },
    ghost one_kind: { IsOfOneKind
        (many (forest_of (λ p. A.tree p.lazy) parts.items)) } by { IsOfOneKind-prop
            (many (forest_of (λ p. A.tree p.lazy) parts.items)) },
}

impl<A: Lazy + Drop> Many<A> {
    ghost use Rattle.rr_model.specs.Sets.Tree.{many, nothing};
    ghost use Rattle.rr_lazy.specs.Many.{tree_with_part};

    /// An iterator over no parts, which has no day until one is put; it takes no memory.
    pub fn new(alloc: Global) -> Many<A>
        ensures tree { ⟦<Many<A> as Lazy>⟧.tree result ≡ many nothing }
        ensures unasked { IsUnasked (⟦<Many<A> as Lazy>⟧.position result) }
        ensures knows { KnowsEach (⟦<Many<A> as Lazy>⟧.knows result) }
    {
        Many {
            parts: Vec::new(alloc),
            position: FIRST_DAY,
        }
    }

    /// Puts a part of the same kind last; neither has been asked.
    pub fn put(&mut self, lazy: A) -> Result<(), NoMemory>
        requires one_kind { IsOfOneKind
            (tree_with_part (⟦<Many<A> as Lazy>⟧.tree self.old) (A.tree lazy)) }
        requires unasked { IsUnasked (⟦<Many<A> as Lazy>⟧.position self.old) }
        requires part_unasked { IsUnasked (A.position lazy) }
        ensures tree { OnOk result (⟦<Many<A> as Lazy>⟧.tree self.new
            ≡ tree_with_part (⟦<Many<A> as Lazy>⟧.tree self.old) (A.tree lazy)) }
        ensures unasked { IsUnasked (⟦<Many<A> as Lazy>⟧.position self.new) }
        ensures knows { KnowsIfBoth (⟦<Many<A> as Lazy>⟧.knows self.old) (A.knows lazy)
            (⟦<Many<A> as Lazy>⟧.knows self.new) }
    {
        self.parts.push(LazyPart { lazy, ahead: None })?;
        Ok(())
    }

    // Whether there is one part alone, and no day that it gave is left to be passed on.
    fn is_one_at_rest(&self) -> bool
        ensures { IsTrue result → IsOneAtRest (λ p. p.ahead) self.now.parts.items }
    {
        self.parts.len() == 1 && self.parts[0].ahead.is_none()
    }

    // The next day of the one part, which passes on as it is.
    fn next_of_one(
        &mut self,
        alloc: Global,
        sets: &mut SetTable,
        to: i64,
    ) -> Result<Option<OccupiedDay>, NoMemory>
        requires one { IsOneAtRest (λ p. p.ahead) self.old.parts.items }
        requires low { earliest_day ≤ℤ to }
        requires high { to ≤ℤ latest_day }
        requires knows { ⟦<Many<A> as Lazy>⟧.knows self.old sets.old }
        ensures tree { ⟦<Many<A> as Lazy>⟧.tree self.new ≡ ⟦<Many<A> as Lazy>⟧.tree self.old }
        ensures knows { ⟦<Many<A> as Lazy>⟧.knows self.new sets.new }
        ensures kept { Extends sets.old sets.new }
        ensures next { IsNextIn sets.new (⟦<Many<A> as Lazy>⟧.tree self.old) self.old.position
            to result self.new.position }
    {
        let found = self.parts[0].lazy.next(alloc, sets, to)?;
        self.position = position_after(found, self.position, to);
        Ok(found)
    }

    // The first day that some part gives, with the seconds of all parts on it.
    fn next_of_all(
        &mut self,
        alloc: Global,
        sets: &mut SetTable,
        to: i64,
    ) -> Result<Option<OccupiedDay>, NoMemory>
        requires low { earliest_day ≤ℤ to }
        requires high { to ≤ℤ latest_day }
        requires knows { ⟦<Many<A> as Lazy>⟧.knows self.old sets.old }
        ensures tree { ⟦<Many<A> as Lazy>⟧.tree self.new ≡ ⟦<Many<A> as Lazy>⟧.tree self.old }
        ensures knows { ⟦<Many<A> as Lazy>⟧.knows self.new sets.new }
        ensures kept { Extends sets.old sets.new }
        ensures next { IsNextIn sets.new (⟦<Many<A> as Lazy>⟧.tree self.old) self.old.position
            to result self.new.position }
    {
        ask_all(alloc, sets, &mut self.parts, self.position, to)?;
        let day = first_of_all(&self.parts, to + 1);
        if day > to {
            self.position = position_past(self.position, to);
            return Ok(None);
        }
        let found = all_on(alloc, sets, &self.parts, day)?;
        forget_all(&mut self.parts, day);
        self.position = day + 1;
        Ok(found)
    }
}

impl<A: Lazy + Drop> Lazy for Many<A> {
    ghost use Rattle.rr_model.specs.Sets.Tree.{many};
    ghost use Rattle.rr_lazy.specs.Parts.{KnowsEachPart};
    ghost use Rattle.rr_lazy.specs.Many.{forest_of, sound_many};
    ghost use Rattle.rr_lazy.specs.Tables.{all_more};

    ghost tree = { λ s. many (forest_of (λ p. A.tree p.lazy) s.parts.items) };

    ghost position = { λ s. s.position };

    ghost knows = { λ s sets. KnowsEachPart A.knows A.tree A.position sets s.position
        s.parts.items };

    ghost knows_more = { λ s old new more k. all_more A.knows A.tree A.position A.knows_more
        s.position (λ p. p.lazy) (λ p. p.ahead) s.parts.items old new more k };

    ghost sound = { λ s. sound_many (forest_of (λ p. A.tree p.lazy) s.parts.items)
        s.position s.one_kind s.begun };

    fn next(
        &mut self,
        alloc: Global,
        sets: &mut SetTable,
        to: i64,
    ) -> Result<Option<OccupiedDay>, NoMemory> {
        if self.is_one_at_rest() {
            self.next_of_one(alloc, sets, to)
        } else {
            self.next_of_all(alloc, sets, to)
        }
    }
}

// Asks each part for its first day up to `to`, unless it is known.
fn ask_all<A: Lazy + Drop>(
    alloc: Global,
    sets: &mut SetTable,
    parts: &mut Vec<LazyPart<A>>,
    from: i64,
    to: i64,
) -> Result<(), NoMemory>
    requires known { KnowsEachPart A.knows A.tree A.position sets.old from parts.old.items }
    requires low { earliest_day ≤ℤ to }
    requires high { to ≤ℤ latest_day }
    ensures tree { forest_of (λ p. A.tree p.lazy) parts.new.items
        ≡ forest_of (λ p. A.tree p.lazy) parts.old.items }
    ensures kept { Extends sets.old sets.new }
    ensures known { KnowsEachPart A.knows A.tree A.position sets.new from parts.new.items }
    ensures none { OnOk result
        (All (λ p. ForNone p.ahead (to <ℤ A.position p.lazy)) parts.new.items) }
{
    let mut index = 0;
    while index < parts.len() {
        ask(alloc, sets, &mut parts[index], from, to)?;
        index += 1;
    }
    Ok(())
}

// Asks a part for its first day up to `to`, unless it is known.
fn ask<A: Lazy + Drop>(
    alloc: Global,
    sets: &mut SetTable,
    part: &mut LazyPart<A>,
    from: i64,
    to: i64,
) -> Result<(), NoMemory>
    requires knows { A.knows part.old.lazy sets.old }
    requires known { IsAheadIn sets.old (A.tree part.old.lazy) (A.position part.old.lazy)
        from part.old.ahead }
    requires low { earliest_day ≤ℤ to }
    requires high { to ≤ℤ latest_day }
    ensures tree { A.tree part.new.lazy ≡ A.tree part.old.lazy }
    ensures kept { Extends sets.old sets.new }
    ensures knows { A.knows part.new.lazy sets.new }
    ensures known { IsAheadIn sets.new (A.tree part.new.lazy) (A.position part.new.lazy)
        from part.new.ahead }
    ensures none { OnOk result (ForNone part.new.ahead (to <ℤ A.position part.new.lazy)) }
{
    fill(alloc, sets, &mut part.lazy, &mut part.ahead, to)
}

// The least of a day and of the days that parts gave.
fn first_of_all<A: Lazy + Drop>(parts: &[LazyPart<A>], from: i64) -> i64
    ensures bound { result ≤ℤ from }
    ensures least { All (λ p. ForSome (day_seen [] p.ahead) (λ f. result ≤ℤ f.day)) parts.now }
    ensures one { (result ≡ from) ⊎ GaveDaySome (λ p. day_seen [] p.ahead) parts.now result }
{
    let mut first = from;
    let mut index = 0;
    while index < parts.len() {
        first = lesser(first, parts[index].ahead);
        index += 1;
    }
    first
}

// The lesser of a day and of what a part gave.
fn lesser(day: i64, ahead: Option<OccupiedDay>) -> i64
    ensures bound { result ≤ℤ day }
    ensures least { ForSome (day_seen [] ahead) (λ f. result ≤ℤ f.day) }
    ensures one { (result ≡ day) ⊎ GaveDay (day_seen [] ahead) result }
{
    match ahead {
        None => day,
        Some(found) => day.min(found.day),
    }
}

// The seconds that parts gave for a day; none if no part gave it.
fn all_on<A: Lazy + Drop>(
    alloc: Global,
    sets: &mut SetTable,
    parts: &[LazyPart<A>],
    day: i64,
) -> Result<Option<OccupiedDay>, NoMemory>
    requires { All (λ p. ForSome p.ahead (IsGivenOn sets.old)) parts.now }
    ensures kept { Extends sets.old sets.new }
    ensures given { IfOk result
        (IsGivenBySome sets.old (λ p. p.ahead) parts.now (length parts.now) day sets.new) }
{
    let mut given = None;
    let mut index = 0;
    while index < parts.len() {
        given = on_day(alloc, sets, given, parts[index].ahead, day)?;
        index += 1;
    }
    Ok(given)
}

// Forgets what parts gave for a day.
fn forget_all<A: Lazy + Drop>(parts: &mut Vec<LazyPart<A>>, day: i64)
    ensures left { HaveForgotten (λ p. p.ahead) (λ p. p.lazy) parts.old.items day parts.new.items }
    ensures within { StayWithin (λ p. p.ahead) parts.old.items parts.new.items }
{
    let mut index = 0;
    while index < parts.len() {
        forget(&mut parts[index].ahead, day);
        index += 1;
    }
}
