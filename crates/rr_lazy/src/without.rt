// The occurrences that are not among dates.
ghost use Rattle.std.specs.Prelude.{◌≡◌, ◌≢◌, ◌≤ℤ◌, [], IfOk, int_lt, pos};
ghost use Rattle.rr_model.specs.Bounds.{earliest_day, latest_day};
ghost use Rattle.rr_model.specs.Calendar.{first_day_of_year};
ghost use Rattle.rr_model.specs.Rising.{Rises};
ghost use Rattle.rr_model.proofs.TreeLemmas.{IsOfOneKind-prop};
ghost use Rattle.rr_model.specs.Sets.Tree.{IsOfOneKind, without};
ghost use Rattle.rr_shapes.specs.Tables.{Extends};
ghost use Rattle.rr_lazy.specs.Ahead.{IsGivenOn};
ghost use Rattle.rr_lazy.specs.Next.{IsUnasked, KnowsIf, with_set};
ghost use Rattle.rr_lazy.specs.Parts.{asked_part, part_in};
ghost use Rattle.rr_lazy.specs.Stretch.{IsLeftOf, IsNextLeftOfAsked, KnowsPartFromSome};

use crate::ahead::{LazyPart, fill};
use crate::position::position_past;
use crate::stretch::{dates_on, take_out};
use crate::{Lazy, OccupiedDay};
use rr_model::{Dates, FIRST_DAY, Kind, NoMemory};
use rr_shapes::SetTable;
use rr_times::TimeSet;
use std::alloc::Global;

/// The occurrences of a part that are not among dates.
#[derive(Drop)]
pub struct Without<A: Lazy + Drop> {
    part: LazyPart<A>,
    kind: Kind,
    dates: Dates,
    position: i64,
    ghost begun: { first_day_of_year (pos 1) ≤ℤ position },
    ghost one_kind: { IsOfOneKind (without (A.tree part.lazy) kind dates) } by { IsOfOneKind-prop
        (without (A.tree part.lazy) kind dates) },
}

impl<A: Lazy + Drop> Without<A> {
    /// The occurrences of a part that has not been asked that are not among rising dates.
    pub fn new(lazy: A, kind: Kind, dates: Dates) -> Without<A>
        requires one_kind { IsOfOneKind (without (A.tree lazy) kind dates) }
        requires unasked { IsUnasked (A.position lazy) }
        ensures tree { ⟦<Without<A> as Lazy>⟧.tree result ≡ without (A.tree lazy) kind dates }
        ensures unasked { IsUnasked (⟦<Without<A> as Lazy>⟧.position result) }
        ensures knows { KnowsIf (A.knows lazy) (⟦<Without<A> as Lazy>⟧.knows result) }
    {
        Without {
            part: LazyPart { lazy, ahead: None },
            kind,
            dates,
            position: FIRST_DAY,
        }
    }
}

impl<A: Lazy + Drop> Lazy for Without<A> {
    ghost use Rattle.rr_model.specs.Sets.Tree.{without};
    ghost use Rattle.rr_lazy.specs.Stretch.{KnowsPart, sound_without};
    ghost use Rattle.rr_lazy.specs.Tables.{knows_part_more};

    ghost tree = { λ s. without (A.tree s.part.lazy) s.kind s.dates };

    ghost position = { λ s. s.position };

    ghost knows = { λ s sets. A.knows s.part.lazy sets × KnowsPart sets (A.tree s.part.lazy)
        (A.position s.part.lazy) s.kind s.dates s.position s.part.ahead };

    ghost knows_more = { λ s old new more k. (
      A.knows_more s.part.lazy old new more k.0,
      knows_part_more old new _ _ _ _ _ _ more k.1,
    ) };

    ghost sound = { λ s. sound_without (A.tree s.part.lazy) s.kind s.dates
        s.position s.one_kind s.begun };

    fn next(
        &mut self,
        alloc: Global,
        sets: &mut SetTable,
        to: i64,
    ) -> Result<Option<OccupiedDay>, NoMemory> {
        let dates = self.dates.as_slice();
        match next_left(alloc, sets, &mut self.part, self.kind, dates, to)? {
            None => {
                self.position = position_past(self.position, to);
                Ok(None)
            }
            Some(found) => {
                self.position = found.day + 1;
                Ok(Some(found))
            }
        }
    }
}

// The first day up to `to` of which something is left once the dates are taken out. A day that the part gave is kept until
// it is known what is left of it, so that a call that ends out of memory loses none.
fn next_left<A: Lazy + Drop>(
    alloc: Global,
    sets: &mut SetTable,
    part: &mut LazyPart<A>,
    kind: Kind,
    dates: &[i64],
    to: i64,
) -> Result<Option<OccupiedDay>, NoMemory>
    requires rises { Rises int_lt dates.now }
    requires low { earliest_day ≤ℤ to }
    requires high { to ≤ℤ latest_day }
    requires knows { A.knows part.old.lazy sets.old }
    requires known { KnowsPartFromSome sets.old (part_in A.tree A.position part.old)
        kind dates.now }
    ensures tree { A.tree part.new.lazy ≡ A.tree part.old.lazy }
    ensures knows { A.knows part.new.lazy sets.new }
    ensures kept { Extends sets.old sets.new }
    ensures next { IsNextLeftOfAsked sets.old sets.new
        (asked_part A.tree A.position part.old part.new) kind dates.now to result }
{
    'days: loop {
        fill(alloc, sets, &mut part.lazy, &mut part.ahead, to)?;
        let Some(found) = part.ahead else {
            return Ok(None);
        };
        if found.day > to {
            return Ok(None);
        }
        let left = left_of(alloc, sets, kind, dates, found)?;
        part.ahead = None;
        if left.is_some() {
            return Ok(left);
        }
    }
}

// What is left of a day once the dates are taken out; none if nothing is.
fn left_of(
    alloc: Global,
    sets: &mut SetTable,
    kind: Kind,
    dates: &[i64],
    found: OccupiedDay,
) -> Result<Option<OccupiedDay>, NoMemory>
    requires rises { Rises int_lt dates.now }
    requires high { found.day ≤ℤ latest_day }
    requires given { IsGivenOn sets.old found }
    requires some { (with_set sets.old found).times ≢ [] }
    ensures kept { Extends sets.old sets.new }
    ensures left { IfOk result (IsLeftOf sets.old kind dates.now found sets.new) }
{
    if !dates_on(kind, dates, found.day) {
        return Ok(Some(found));
    }
    let seconds = &sets.times(found.number).as_slice()[..found.count];
    let mut times = TimeSet::of(alloc, seconds)?;
    take_out(&mut times, kind, dates, found.day);
    let count = times.as_slice().len();
    if count == 0 {
        return Ok(None);
    }
    let number = sets.place(times)?;
    Ok(Some(OccupiedDay {
        day: found.day,
        number,
        count,
    }))
}
