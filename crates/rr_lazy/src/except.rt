// The occurrences of one part that another lacks.
ghost use Rattle.std.specs.Prelude.{◌≡◌, ◌≢◌, ◌≤ℤ◌, ◌<ℤ◌, [], IfOk, OnOk, pos};
ghost use Rattle.std.specs.Option.{ForNone, ForSome};
ghost use Rattle.rr_model.specs.Bounds.{earliest_day, latest_day};
ghost use Rattle.rr_model.specs.Calendar.{first_day_of_year};
ghost use Rattle.rr_model.proofs.TreeLemmas.{IsOfOneKind-prop};
ghost use Rattle.rr_model.specs.Sets.Tree.{IsOfOneKind, except};
ghost use Rattle.rr_shapes.specs.Tables.{Extends};
ghost use Rattle.rr_lazy.specs.Ahead.{IsGivenOn};
ghost use Rattle.rr_lazy.specs.Except.{IsAheadUpTo, IsLacking, IsLeftBy, IsNextOfAsked, KnowsBothFromSome};
ghost use Rattle.rr_lazy.specs.Parts.{asked_part, part_in, part_of};
ghost use Rattle.rr_lazy.specs.Next.{IsUnasked, KnowsIfBoth, with_set};

use crate::ahead::{LazyPart, fill, of_day};
use crate::position::position_past;
use crate::{Lazy, OccupiedDay};
use rr_model::{FIRST_DAY, MAX_DAY, NoMemory};
use rr_shapes::SetTable;
use std::alloc::Global;

// The last day up to which a part is asked.
const LAST_ASKED: i64 = MAX_DAY - 1_000;

/// The occurrences of one part that another lacks. The other part is asked for at most a week more than the days of the first
/// one.
#[derive(Drop)]
pub struct Except<A: Lazy + Drop, B: Lazy + Drop> {
    a: LazyPart<A>,
    b: LazyPart<B>,
    position: i64,
    ghost begun: { first_day_of_year (pos 1) ≤ℤ position },
    ghost one_kind: { IsOfOneKind (except (A.tree a.lazy) (B.tree b.lazy)) } by { IsOfOneKind-prop
        (except (A.tree a.lazy) (B.tree b.lazy)) },
}

impl<A: Lazy + Drop, B: Lazy + Drop> Except<A, B> {
    /// The occurrences of a first part that a second one lacks. Both are of one kind, and neither has been asked.
    pub fn new(a: A, b: B) -> Except<A, B>
        requires one_kind { IsOfOneKind (except (A.tree a) (B.tree b)) }
        requires a { IsUnasked (A.position a) }
        requires b { IsUnasked (B.position b) }
        ensures tree { ⟦<Except<A, B> as Lazy>⟧.tree result ≡ except (A.tree a) (B.tree b) }
        ensures unasked { IsUnasked (⟦<Except<A, B> as Lazy>⟧.position result) }
        ensures knows { KnowsIfBoth (A.knows a) (B.knows b)
            (⟦<Except<A, B> as Lazy>⟧.knows result) }
    {
        Except {
            a: LazyPart {
                lazy: a,
                ahead: None,
            },
            b: LazyPart {
                lazy: b,
                ahead: None,
            },
            position: FIRST_DAY,
        }
    }
}

impl<A: Lazy + Drop, B: Lazy + Drop> Lazy for Except<A, B> {
    ghost use Rattle.rr_model.specs.Sets.Tree.{except};
    ghost use Rattle.rr_lazy.specs.Except.{KnowsBoth, knows_both_more, sound_except};
    ghost use Rattle.rr_lazy.specs.Parts.{part_in};

    ghost tree = { λ s. except (A.tree s.a.lazy) (B.tree s.b.lazy) };

    ghost position = { λ s. s.position };

    ghost knows = { λ s sets. A.knows s.a.lazy sets × B.knows s.b.lazy sets
        × KnowsBoth sets (part_in A.tree A.position s.a) (part_in B.tree B.position s.b)
        s.position };

    ghost knows_more = { λ s old new more k. (
      A.knows_more s.a.lazy old new more k.0,
      B.knows_more s.b.lazy old new more k.1,
      knows_both_more old new _ _ _ more k.2,
    ) };

    ghost sound = { λ s. sound_except (A.tree s.a.lazy) (B.tree s.b.lazy) s.position
        s.one_kind s.begun };

    fn next(
        &mut self,
        alloc: Global,
        sets: &mut SetTable,
        to: i64,
    ) -> Result<Option<OccupiedDay>, NoMemory> {
        match next_of_both(alloc, sets, &mut self.a, &mut self.b, to)? {
            None => {
                self.position = position_past(self.position, to);
                Ok(None)
            }
            Some(found) => {
                self.position = found.day + 1;
                Ok(Some(found))
            }
        }
    }
}

// The first day up to `to` of which something is left once the second part is taken out. A day that the first part gave is
// kept until it is known what is left of it, so that a call that ends out of memory loses none.
fn next_of_both<A: Lazy + Drop, B: Lazy + Drop>(
    alloc: Global,
    sets: &mut SetTable,
    a: &mut LazyPart<A>,
    b: &mut LazyPart<B>,
    to: i64,
) -> Result<Option<OccupiedDay>, NoMemory>
    requires low { earliest_day ≤ℤ to }
    requires high { to ≤ℤ latest_day }
    requires knows_a { A.knows a.old.lazy sets.old }
    requires knows_b { B.knows b.old.lazy sets.old }
    requires known { KnowsBothFromSome sets.old (part_in A.tree A.position a.old)
        (part_in B.tree B.position b.old) }
    ensures tree_a { A.tree a.new.lazy ≡ A.tree a.old.lazy }
    ensures tree_b { B.tree b.new.lazy ≡ B.tree b.old.lazy }
    ensures knows_a { A.knows a.new.lazy sets.new }
    ensures knows_b { B.knows b.new.lazy sets.new }
    ensures kept { Extends sets.old sets.new }
    ensures next { IsNextOfAsked sets.old sets.new (asked_part A.tree A.position a.old a.new)
        (asked_part B.tree B.position b.old b.new) to result }
{
    'days: loop {
        fill(alloc, sets, &mut a.lazy, &mut a.ahead, to)?;
        let Some(found) = a.ahead else {
            return Ok(None);
        };
        if found.day > to {
            return Ok(None);
        }
        let left = left_of(alloc, sets, &mut b.lazy, &mut b.ahead, found)?;
        a.ahead = None;
        if left.is_some() {
            return Ok(left);
        }
    }
}

// What is left of a day that the first part gave once the second one is taken out; none if nothing is. The days of the
// second part before it are passed over.
fn left_of<B: Lazy>(
    alloc: Global,
    sets: &mut SetTable,
    lazy: &mut B,
    ahead: &mut Option<OccupiedDay>,
    found: OccupiedDay,
) -> Result<Option<OccupiedDay>, NoMemory>
    requires low { earliest_day ≤ℤ found.day }
    requires high { found.day ≤ℤ latest_day }
    requires knows { B.knows lazy.old sets.old }
    requires known { IsAheadUpTo sets.old
        (part_of (B.tree lazy.old) (B.position lazy.old) ahead.old) found.day }
    requires given { IsGivenOn sets.old found }
    requires some { (with_set sets.old found).times ≢ [] }
    ensures tree { B.tree lazy.new ≡ B.tree lazy.old }
    ensures knows { B.knows lazy.new sets.new }
    ensures kept { Extends sets.old sets.new }
    ensures known { IsAheadUpTo sets.new
        (part_of (B.tree lazy.old) (B.position lazy.new) ahead.new) found.day }
    ensures left { IfOk result (IsLeftBy sets.old (B.tree lazy.old) found sets.new) }
{
    pass_to(alloc, sets, lazy, ahead, found.day)?;
    match of_day(*ahead, found.day) {
        Some(out) => seconds_lacking(alloc, sets, found, out),
        None => Ok(Some(found)),
    }
}

// Passes over the days of a part before one: what it gave then is not before that day, or it has none up to it. It is asked
// for the days of a week more: a day that it gives serves for all days before it.
fn pass_to<B: Lazy>(
    alloc: Global,
    sets: &mut SetTable,
    lazy: &mut B,
    ahead: &mut Option<OccupiedDay>,
    day: i64,
) -> Result<(), NoMemory>
    requires low { earliest_day ≤ℤ day }
    requires high { day ≤ℤ latest_day }
    requires knows { B.knows lazy.old sets.old }
    requires known { IsAheadUpTo sets.old
        (part_of (B.tree lazy.old) (B.position lazy.old) ahead.old) day }
    ensures tree { B.tree lazy.new ≡ B.tree lazy.old }
    ensures knows { B.knows lazy.new sets.new }
    ensures kept { Extends sets.old sets.new }
    ensures known { IsAheadUpTo sets.new
        (part_of (B.tree lazy.old) (B.position lazy.new) ahead.new) day }
    ensures some { OnOk result (ForSome ahead.new (λ f. day ≤ℤ f.day)) }
    ensures none { OnOk result (ForNone ahead.new (day <ℤ B.position lazy.new)) }
{
    let last = (day + 7).min(LAST_ASKED);
    'days: loop {
        fill(alloc, sets, lazy, ahead, last)?;
        let Some(found) = *ahead else {
            return Ok(());
        };
        if found.day >= day {
            return Ok(());
        }
        *ahead = None;
    }
}

// The seconds of a day that one part gave and another, which gave the day too, lacks; none if it lacks none.
fn seconds_lacking(
    alloc: Global,
    sets: &mut SetTable,
    a: OccupiedDay,
    b: OccupiedDay,
) -> Result<Option<OccupiedDay>, NoMemory>
    requires a { IsGivenOn sets.old a }
    requires b { IsGivenOn sets.old b }
    ensures kept { Extends sets.old sets.new }
    ensures left { IfOk result (IsLacking sets.old a b sets.new) }
{
    let of_a = sets.prefix(alloc, a.number, a.count)?;
    let of_b = sets.prefix(alloc, b.number, b.count)?;
    let number = sets.difference(alloc, of_a, of_b)?;
    let count = sets.times(number).as_slice().len();
    if count == 0 {
        return Ok(None);
    }
    Ok(Some(OccupiedDay {
        day: a.day,
        number,
        count,
    }))
}
