// A part of a combinator, and the day that it gave and that was not passed on yet.
ghost use Rattle.std.specs.Prelude.{◌≡◌, ◌↔◌, IfOk, IsTrue, OnOk, List, ℕ, ◌≤ℤ◌, ◌<ℤ◌};
ghost use Rattle.std.specs.Option.{ForNone, ForSome};
ghost use Rattle.rr_model.specs.Bounds.{earliest_day, latest_day};
ghost use Rattle.rr_shapes.specs.Tables.{Extends};
ghost use Rattle.rr_lazy.specs.Ahead.{GaveDay, HasForgotten, IsGivenOn, IsGivenByBoth, IsOfDay, StaysAhead, day_seen};

use crate::{Lazy, OccupiedDay};
use rr_model::NoMemory;
use rr_shapes::SetTable;
use std::alloc::Global;

// A part, and the day that it gave and that was not passed on yet.
#[derive(Drop)]
pub(crate) struct LazyPart<L: Lazy + Drop> {
    pub(crate) lazy: L,
    pub(crate) ahead: Option<OccupiedDay>,
}

// Asks a part for its first day up to `to`, unless it is known.
#[inline(always)]
pub(crate) fn fill<L: Lazy>(
    alloc: Global,
    sets: &mut SetTable,
    lazy: &mut L,
    ahead: &mut Option<OccupiedDay>,
    to: i64,
) -> Result<(), NoMemory>
    requires low { earliest_day ≤ℤ to }
    requires high { to ≤ℤ latest_day }
    requires knows { L.knows lazy.old sets.old }
    ensures tree { L.tree lazy.new ≡ L.tree lazy.old }
    ensures knows { L.knows lazy.new sets.new }
    ensures kept { Extends sets.old sets.new }
    ensures known { StaysAhead sets.old sets.new (L.tree lazy.old)
        (L.position lazy.old) (L.position lazy.new) ahead.old ahead.new }
    ensures none { OnOk result (ForNone ahead.new (to <ℤ L.position lazy.new)) }
{
    if ahead.is_none() {
        *ahead = lazy.next(alloc, sets, to)?;
    }
    Ok(())
}

// The seconds that two parts gave for a day; none if neither gave it. If one alone gave it, its own number stands.
#[inline(always)]
pub(crate) fn on_day(
    alloc: Global,
    sets: &mut SetTable,
    a: Option<OccupiedDay>,
    b: Option<OccupiedDay>,
    day: i64,
) -> Result<Option<OccupiedDay>, NoMemory>
    requires a { ForSome a (IsGivenOn sets.old) }
    requires b { ForSome b (IsGivenOn sets.old) }
    ensures kept { Extends sets.old sets.new }
    ensures given { IfOk result (IsGivenByBoth sets.old a b day sets.new) }
{
    match (of_day(a, day), of_day(b, day)) {
        (Some(x), Some(y)) => Ok(Some(union_of(alloc, sets, x, y)?)),
        (Some(x), None) => Ok(Some(x)),
        (None, y) => Ok(y),
    }
}

// What a part gave, if it is this day.
pub(crate) fn of_day(ahead: Option<OccupiedDay>, day: i64) -> Option<OccupiedDay>
    ensures { IsOfDay ahead day result }
{
    match ahead {
        Some(found) if found.day == day => ahead,
        _ => None,
    }
}

// The seconds of a day that two parts gave.
#[inline(never)]
fn union_of(
    alloc: Global,
    sets: &mut SetTable,
    a: OccupiedDay,
    b: OccupiedDay,
) -> Result<OccupiedDay, NoMemory>
    requires a { IsGivenOn sets.old a }
    requires b { IsGivenOn sets.old b }
    requires day { a.day ≡ b.day }
    ensures kept { Extends sets.old sets.new }
    ensures given { IfOk result
        (λ f. IsGivenByBoth sets.old (Some a) (Some b) a.day sets.new (Some f)) }
{
    let of_a = sets.prefix(alloc, a.number, a.count)?;
    let of_b = sets.prefix(alloc, b.number, b.count)?;
    let number = sets.union(alloc, of_a, of_b)?;
    Ok(OccupiedDay {
        day: a.day,
        number,
        count: sets.times(number).as_slice().len(),
    })
}

// Forgets what a part gave for a day.
pub(crate) fn forget(ahead: &mut Option<OccupiedDay>, day: i64)
    ensures left { HasForgotten ahead.old day ahead.new }
    ensures within { ForSome ahead.new (λ f. ahead.old ≡ Some f) }
{
    if is_on(*ahead, day) {
        *ahead = None;
    }
}

// Whether a part gave this day.
fn is_on(ahead: Option<OccupiedDay>, day: i64) -> bool
    ensures { (sets : List (List ℕ)) → IsTrue result ↔ GaveDay (day_seen sets ahead) day }
{
    match ahead {
        None => false,
        Some(found) => found.day == day,
    }
}
