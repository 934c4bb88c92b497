// The occurrences up to a moment.
ghost use Rattle.std.specs.Prelude.{◌≡◌, ◌≤◌, ◌≤ℤ◌, [], get_or, pos, take};
ghost use Rattle.rr_model.specs.Calendar.{first_day_of_year};
ghost use Rattle.rr_model.specs.Moment.{day_part};
ghost use Rattle.rr_model.proofs.TreeLemmas.{IsOfOneKind-prop};
ghost use Rattle.rr_model.specs.Sets.Tree.{IsOfOneKind, upto};
ghost use Rattle.rr_model.specs.Rising.Sets.{IsSecondsOfDay};
ghost use Rattle.rr_lazy.specs.Next.{IsInTable, IsUnasked, KnowsIf, with_set};
ghost use Rattle.rr_lazy.specs.Upto.{IsSecondsTo, IsUpTo};

use crate::position::position_past;
use crate::{Lazy, OccupiedDay};
use rr_model::{FIRST_DAY, Kind, NoMemory, day_part, second_part};
use rr_shapes::SetTable;
use std::alloc::Global;

/// The occurrences of a part that are not after a moment.
#[derive(Drop)]
pub struct Upto<A: Lazy + Drop> {
    lazy: A,
    kind: Kind,
    at: i64,
    last_day: i64,
    position: i64,
    ghost begun: { first_day_of_year (pos 1) ≤ℤ position },
    ghost one_kind: { IsOfOneKind (upto (A.tree lazy) kind at) } by { IsOfOneKind-prop
        (upto (A.tree lazy) kind at) },
    ghost of_day: { last_day ≡ day_part kind at },
    ghost together: { position ≤ℤ last_day → A.position lazy ≡ position },
}

impl<A: Lazy + Drop> Upto<A> {
    /// The occurrences of a part, which has not been asked, up to a moment of their kind, in days or seconds since
    /// 1970-01-01.
    pub fn new(lazy: A, kind: Kind, at: i64) -> Upto<A>
        requires one_kind { IsOfOneKind (upto (A.tree lazy) kind at) }
        requires unasked { IsUnasked (A.position lazy) }
        ensures tree { ⟦<Upto<A> as Lazy>⟧.tree result ≡ upto (A.tree lazy) kind at }
        ensures unasked { IsUnasked (⟦<Upto<A> as Lazy>⟧.position result) }
        ensures knows { KnowsIf (A.knows lazy) (⟦<Upto<A> as Lazy>⟧.knows result) }
    {
        let last_day = day_part(kind, at);
        Upto {
            lazy,
            kind,
            at,
            last_day,
            position: FIRST_DAY,
        }
    }
}

impl<A: Lazy + Drop> Lazy for Upto<A> {
    ghost use Rattle.rr_model.specs.Sets.Tree.{upto};
    ghost use Rattle.rr_lazy.specs.Upto.{sound_upto};

    ghost tree = { λ s. upto (A.tree s.lazy) s.kind s.at };

    ghost position = { λ s. s.position };

    ghost knows = { λ s sets. A.knows s.lazy sets };

    ghost knows_more = { λ s old new more k. A.knows_more s.lazy old new more k };

    ghost sound = { λ s. sound_upto (A.tree s.lazy) s.kind s.at s.position s.one_kind s.begun };

    fn next(
        &mut self,
        alloc: Global,
        sets: &mut SetTable,
        to: i64,
    ) -> Result<Option<OccupiedDay>, NoMemory> {
        if self.position > self.last_day {
            self.position = position_past(self.position, to);
            return Ok(None);
        }
        match self.lazy.next(alloc, sets, to.min(self.last_day))? {
            None => {
                self.position = position_past(self.position, to);
                Ok(None)
            }
            Some(mut found) => {
                found.count = count_to(sets, self.kind, self.at, found);
                if found.count == 0 {
                    self.position = position_past(self.position, to);
                    return Ok(None);
                }
                self.position = found.day + 1;
                Ok(Some(found))
            }
        }
    }
}

// How many seconds of a day are not after a moment.
fn count_to(sets: &SetTable, kind: Kind, at: i64, found: OccupiedDay) -> usize
    requires within { IsInTable sets.now found }
    requires of_day { IsSecondsOfDay ((with_set sets.now found).times) }
    ensures few { result ≤ found.count }
    ensures seconds { IsUpTo kind at found.day ((with_set sets.now found).times)
        (take result (get_or sets.now found.number.index [])) }
{
    if found.day < day_part(kind, at) {
        return found.count;
    }
    let bound = seconds_to(kind, at, found.day);
    let seconds = &sets.times(found.number).as_slice()[..found.count];
    seconds.partition_point(|second| *second < bound)
}

// The seconds of a day that are not after a moment lie below this one.
fn seconds_to(kind: Kind, at: i64, day: i64) -> u32
    ensures { IsSecondsTo kind at day result }
{
    let last = day_part(kind, at);
    if day < last {
        86_400
    } else if day > last {
        0
    } else {
        match kind {
            Kind::Days => 86_400,
            Kind::Moments => second_part(kind, at) + 1,
        }
    }
}
