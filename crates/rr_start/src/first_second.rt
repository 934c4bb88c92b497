// The first second at which something occurs.
ghost use Rattle.std.specs.Prelude.{◌≤ℤ◌, IfOk, List, ℕ};
ghost use Rattle.rr_model.specs.Bounds.{latest_day};
ghost use Rattle.rr_model.specs.Moment.Years.{IsFromYearOne};
ghost use Rattle.rr_lazy.specs.Next.{IsUnasked};
ghost use Rattle.rr_start.specs.Search.{IsFirstSecond};

use rr_lazy::Lazy;
use rr_model::NoMemory;
use rr_shapes::SetTable;
use std::alloc::Global;

// A second of a day.
#[derive(Clone, Copy)]
pub(crate) struct SecondOfDay {
    // The day, in days since 1970-01-01.
    pub(crate) day: i64,
    // The second, from 0 to 86,399; 0 for a date.
    pub(crate) second: u32,
}

// The first second at which something stands in a set that has not been asked, looked for up to a day.
pub(crate) fn first_second<A: Lazy + Drop>(
    alloc: Global,
    mut lazy: A,
    to: i64,
) -> Result<Option<SecondOfDay>, NoMemory>
    requires unasked { IsUnasked (A.position lazy) }
    requires knows { (sets : List (List ℕ)) → A.knows lazy sets }
    requires low { IsFromYearOne to }
    requires high { to ≤ℤ latest_day }
    ensures { IfOk result (IsFirstSecond (A.tree lazy) to) }
{
    let mut sets = SetTable::new(alloc);
    match lazy.next(alloc, &mut sets, to)? {
        None => Ok(None),
        Some(found) => Ok(Some(SecondOfDay {
            day: found.day,
            second: sets.times(found.number).as_slice()[0],
        })),
    }
}
