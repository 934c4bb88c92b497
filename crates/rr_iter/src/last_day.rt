// The last day of a rule that ends.
ghost use Rattle.std.specs.Prelude.{◌≤◌, ◌≤ℤ◌, IfOk, List, ℕ, pos};
ghost use Rattle.rr_model.specs.Bounds.{latest_day};
ghost use Rattle.rr_model.specs.Answers.{RefusedExactlyWhere};
ghost use Rattle.rr_model.specs.Moment.{day_part};
ghost use Rattle.rr_model.specs.Moment.Years.{IsFromYearOne};
ghost use Rattle.rr_model.specs.Series.Limits.{CountsTooFar};
ghost use Rattle.rr_model.specs.Series.Tree.{members_of};
ghost use Rattle.rr_model.specs.declared.refusal.Refusal.TheVariants.{CountedTooFar};
ghost use Rattle.rr_lazy.specs.Next.{IsUnasked};
ghost use Rattle.rr_iter.specs.Counts.{IsCountOf};
ghost use Rattle.rr_iter.specs.Ends.{IsLastDay, IsLastUpTo, IsSoundRule};

use crate::EndedLazy;
use crate::counted::last_counted;
use crate::counts::LastDay;
use rr_lazy::Lazy;
use rr_model::{End, Fault, Kind, NoMemory, Rule, day_part};
use rr_shapes::SetTable;
use std::alloc::Global;

// The last day of a rule's UNTIL or members, and what was counted to find it; the start's day for an endless rule.
pub(crate) fn last_day(alloc: Global, rule: &Rule, kind: Kind, start: i64) -> Result<LastDay, Fault>
    requires sound { IsSoundRule kind start rule.now }
    ensures day { IfOk result (λ last. IsLastDay kind start rule.now last.day) }
    ensures near { IfOk result (λ last. last.day ≤ℤ pos 19_710_112) }
    ensures counted { IfOk result (λ last. IsCountOf kind start rule.now last.counted) }
    ensures refused { RefusedExactlyWhere (CountsTooFar kind start rule.now) CountedTooFar result }
{
    match rule.end {
        End::Never => Ok(LastDay {
            day: day_part(kind, start),
            counted: None,
        }),
        End::Until { at, .. } => Ok(LastDay {
            day: day_part(kind, at),
            counted: None,
        }),
        End::Count(count) => last_counted(alloc, rule, kind, start, count),
        End::Both { at, .. } => Ok(LastDay {
            day: last_member(alloc, rule, kind, start, day_part(kind, at))?,
            counted: None,
        }),
    }
}

// The last day up to a day on which a rule has a member; the start's day if there is none.
fn last_member(alloc: Global, rule: &Rule, kind: Kind, start: i64, to: i64) -> Result<i64, NoMemory>
    requires sound { IsSoundRule kind start rule.now }
    requires low { IsFromYearOne to }
    requires high { to ≤ℤ latest_day }
    ensures { IfOk result (IsLastUpTo (members_of kind start rule.now) (day_part kind start) to) }
{
    let members = EndedLazy::new(alloc, rule, kind, start)?;
    last_occupied(alloc, members, day_part(kind, start), to)
}

// The last occupied day up to a day; the one that is given if there is none.
fn last_occupied<A: Lazy + Drop>(
    alloc: Global,
    mut lazy: A,
    given: i64,
    to: i64,
) -> Result<i64, NoMemory>
    requires unasked { IsUnasked (A.position lazy) }
    requires knows { (sets : List (List ℕ)) → A.knows lazy sets }
    requires given { IsFromYearOne given }
    requires low { IsFromYearOne to }
    requires high { to ≤ℤ latest_day }
    ensures { IfOk result (IsLastUpTo (A.tree lazy) given to) }
{
    let mut sets = SetTable::new(alloc);
    let mut last = given;
    'days: loop {
        match lazy.next(alloc, &mut sets, to)? {
            None => return Ok(last),
            Some(found) => last = found.day,
        }
    }
}
