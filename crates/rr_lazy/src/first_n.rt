// The first n occurrences.
ghost use Rattle.std.specs.Prelude.{◌≡◌};
ghost use Rattle.rr_lazy.specs.FirstN.{IsCounting};
ghost use Rattle.rr_lazy.specs.Next.{IsUnasked, KnowsIf};

use crate::position::position_past;
use crate::{Lazy, OccupiedDay};
use rr_model::{FIRST_DAY, NoMemory};
use rr_shapes::SetTable;
use std::alloc::Global;

/// The first n occurrences of a part; the last of them may lie within a day.
#[derive(Drop)]
pub struct FirstN<A: Lazy + Drop> {
    lazy: A,
    count: u64,
    left: u64,
    position: i64,
    ghost counting: { IsCounting (A.tree lazy) (A.position lazy) position count left },
}

impl<A: Lazy + Drop> FirstN<A> {
    ghost use Rattle.rr_model.specs.Sets.Tree.{first_n};

    /// The first occurrences of a part that has not been asked.
    pub fn new(lazy: A, count: u64) -> FirstN<A>
        requires { IsUnasked (A.position lazy) }
        ensures tree { ⟦<FirstN<A> as Lazy>⟧.tree result ≡ first_n (A.tree lazy) count }
        ensures unasked { IsUnasked (⟦<FirstN<A> as Lazy>⟧.position result) }
        ensures knows { KnowsIf (A.knows lazy) (⟦<FirstN<A> as Lazy>⟧.knows result) }
    {
        FirstN {
            lazy,
            count,
            left: count,
            position: FIRST_DAY,
        }
    }
}

impl<A: Lazy + Drop> Lazy for FirstN<A> {
    ghost use Rattle.rr_model.specs.Sets.Tree.{first_n};
    ghost use Rattle.rr_lazy.specs.FirstN.{sound_first};

    ghost tree = { λ s. first_n (A.tree s.lazy) s.count };

    ghost position = { λ s. s.position };

    ghost sound = { λ s. sound_first (A.tree s.lazy) (A.position s.lazy) s.position s.count s.left
        (A.sound s.lazy) s.counting };

    ghost knows = { λ s sets. A.knows s.lazy sets };

    ghost knows_more = { λ s old new more k. A.knows_more s.lazy old new more k };

    fn next(
        &mut self,
        alloc: Global,
        sets: &mut SetTable,
        to: i64,
    ) -> Result<Option<OccupiedDay>, NoMemory> {
        if self.left == 0 {
            self.position = position_past(self.position, to);
            return Ok(None);
        }
        match self.lazy.next(alloc, sets, to)? {
            None => {
                self.position = position_past(self.position, to);
                Ok(None)
            }
            Some(mut found) => {
                found.count = found.count.min(self.left as usize);
                self.left -= found.count as u64;
                self.position = found.day + 1;
                Ok(Some(found))
            }
        }
    }
}
