// The union of two sets of occurrences, asked for day by day.
ghost use Rattle.std.specs.Prelude.{◌≡◌, OnOk, List, ℕ, pos, ◌≤ℤ◌, ◌<ℤ◌};
ghost use Rattle.std.specs.Option.{ForNone};
ghost use Rattle.rr_model.specs.Bounds.{earliest_day, latest_day};
ghost use Rattle.rr_model.specs.Calendar.{first_day_of_year};
ghost use Rattle.rr_model.proofs.TreeLemmas.{IsOfOneKind-prop};
ghost use Rattle.rr_model.specs.Sets.Tree.{IsOfOneKind, union};
ghost use Rattle.rr_shapes.specs.Tables.{Extends};
ghost use Rattle.rr_lazy.specs.Next.{IsUnasked, KnowsIfBoth};
ghost use Rattle.rr_lazy.specs.Ahead.{IsFirstOfBoth, day_seen};

use crate::ahead::{LazyPart, fill, forget, on_day};
use crate::position::position_past;
use crate::{Lazy, OccupiedDay};
use rr_model::{FIRST_DAY, NoMemory};
use rr_shapes::SetTable;
use std::alloc::Global;

/// The days of two parts.
#[derive(Drop)]
pub struct Union<A: Lazy + Drop, B: Lazy + Drop> {
    a: LazyPart<A>,
    b: LazyPart<B>,
    position: i64,
    ghost begun: { first_day_of_year (pos 1) ≤ℤ position },
    ghost one_kind: { IsOfOneKind (union (A.tree a.lazy) (B.tree b.lazy)) } by { IsOfOneKind-prop
        (union (A.tree a.lazy) (B.tree b.lazy)) },
}

impl<A: Lazy + Drop, B: Lazy + Drop> Union<A, B> {
    /// The days of two parts of one kind that have not been asked.
    pub fn new(a: A, b: B) -> Union<A, B>
        requires one_kind { IsOfOneKind (union (A.tree a) (B.tree b)) }
        requires a { IsUnasked (A.position a) }
        requires b { IsUnasked (B.position b) }
        ensures tree { ⟦<Union<A, B> as Lazy>⟧.tree result ≡ union (A.tree a) (B.tree b) }
        ensures unasked { IsUnasked (⟦<Union<A, B> as Lazy>⟧.position result) }
        ensures knows { KnowsIfBoth (A.knows a) (B.knows b) (⟦<Union<A, B> as Lazy>⟧.knows result) }
    {
        Union {
            a: LazyPart {
                lazy: a,
                ahead: None,
            },
            b: LazyPart {
                lazy: b,
                ahead: None,
            },
            position: FIRST_DAY,
        }
    }

    // Asks the parts of which no day is known for their first day up to `to`.
    fn fill_both(&mut self, alloc: Global, sets: &mut SetTable, to: i64) -> Result<(), NoMemory>
        requires low { earliest_day ≤ℤ to }
        requires high { to ≤ℤ latest_day }
        requires knows { ⟦<Union<A, B> as Lazy>⟧.knows self.old sets.old }
        ensures tree_a { A.tree self.new.a.lazy ≡ A.tree self.old.a.lazy }
        ensures tree_b { B.tree self.new.b.lazy ≡ B.tree self.old.b.lazy }
        ensures position { self.new.position ≡ self.old.position }
        ensures knows { ⟦<Union<A, B> as Lazy>⟧.knows self.new sets.new }
        ensures kept { Extends sets.old sets.new }
        ensures none_a { OnOk result (ForNone self.new.a.ahead (to <ℤ A.position self.new.a.lazy)) }
        ensures none_b { OnOk result (ForNone self.new.b.ahead (to <ℤ B.position self.new.b.lazy)) }
    {
        fill(alloc, sets, &mut self.a.lazy, &mut self.a.ahead, to)?;
        fill(alloc, sets, &mut self.b.lazy, &mut self.b.ahead, to)
    }
}

impl<A: Lazy + Drop, B: Lazy + Drop> Lazy for Union<A, B> {
    ghost use Rattle.rr_model.specs.Sets.Tree.{union};
    ghost use Rattle.rr_lazy.specs.Ahead.{IsAheadIn, sound_union};
    ghost use Rattle.rr_lazy.specs.Tables.{ahead_more};

    ghost tree = { λ s. union (A.tree s.a.lazy) (B.tree s.b.lazy) };

    ghost position = { λ s. s.position };

    ghost knows = { λ s sets. A.knows s.a.lazy sets × B.knows s.b.lazy sets
        × IsAheadIn sets (A.tree s.a.lazy) (A.position s.a.lazy) s.position s.a.ahead
        × IsAheadIn sets (B.tree s.b.lazy) (B.position s.b.lazy) s.position s.b.ahead };

    ghost knows_more = { λ s old new more k. (
      A.knows_more s.a.lazy old new more k.0,
      B.knows_more s.b.lazy old new more k.1,
      ahead_more old new _ _ _ _ more k.2,
      ahead_more old new _ _ _ _ more k.3,
    ) };

    ghost sound = { λ s. sound_union (A.tree s.a.lazy) (B.tree s.b.lazy) s.position
        s.one_kind s.begun };

    fn next(
        &mut self,
        alloc: Global,
        sets: &mut SetTable,
        to: i64,
    ) -> Result<Option<OccupiedDay>, NoMemory> {
        self.fill_both(alloc, sets, to)?;
        match first_of_both(self.a.ahead, self.b.ahead, to) {
            None => {
                self.position = position_past(self.position, to);
                Ok(None)
            }
            Some(day) => {
                let found = on_day(alloc, sets, self.a.ahead, self.b.ahead, day)?;
                forget(&mut self.a.ahead, day);
                forget(&mut self.b.ahead, day);
                self.position = day + 1;
                Ok(found)
            }
        }
    }
}

// The lesser of the days that two parts gave, if it is not after `to`.
fn first_of_both(a: Option<OccupiedDay>, b: Option<OccupiedDay>, to: i64) -> Option<i64>
    ensures { (sets : List (List ℕ)) → IsFirstOfBoth (day_seen sets a) (day_seen sets b) to result }
{
    let first = match (a, b) {
        (None, None) => return None,
        (Some(x), None) => x.day,
        (None, Some(y)) => y.day,
        (Some(x), Some(y)) => x.day.min(y.day),
    };
    if first <= to { Some(first) } else { None }
}
