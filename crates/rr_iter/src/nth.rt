// Where the chosen moment of a number lies.
ghost use Rattle.std.specs.Prelude.{◌≡◌, ◌≤◌, ◌≤ℤ◌, IfOk, List, ℕ};
ghost use Rattle.rr_model.specs.Bounds.{latest_day};
ghost use Rattle.rr_model.specs.Moment.Years.{IsFromYearOne};
ghost use Rattle.rr_model.specs.Sets.Tree.{chosen_of};
ghost use Rattle.rr_lazy.specs.Next.{IsUnasked};
ghost use Rattle.rr_iter.specs.Ends.{IsNthDayOf, IsSoundRule};

use rr_lazy::Lazy;
use rr_model::{Kind, NoMemory, Rule};
use rr_shapes::SetTable;
use rr_walk::RuleLazy;
use std::alloc::Global;

/// On which day the occurrence of a number lies, looked for up to a day.
#[derive(Clone, Copy)]
pub enum NthDay {
    /// On this day, in days since 1970-01-01.
    On(i64),
    /// After the days that were looked at, as the one of this number there, from 1.
    Beyond(u64),
}

// The day of the chosen moment of a number, from 1, looked for from the rule's start up to a day, in days since
// 1970-01-01; if the days up to that one hold fewer, `Beyond(k)`: the one that is meant is the `k`-th after that day.
// INTERVAL and the BY parts are asked, BYSETPOS among them; UNTIL and COUNT are not. Each day's moments are counted at
// once.
pub(crate) fn day_of_nth(
    alloc: Global,
    rule: &Rule,
    kind: Kind,
    start: i64,
    number: u64,
    to: i64,
) -> Result<NthDay, NoMemory>
    requires sound { IsSoundRule kind start rule.now }
    requires some { 1 ≤ number }
    requires low { IsFromYearOne to }
    requires high { to ≤ℤ latest_day }
    ensures { IfOk result (IsNthDayOf (chosen_of rule.now kind start) number to) }
{
    let chosen = RuleLazy::new(alloc, rule, kind, start)?;
    nth_of(alloc, chosen, number, to)
}

/// On which day the occurrence of a number, from 1, lies, looked for up to a day, in days since 1970-01-01. The set
/// must not have been asked before. Each day's moments are counted at once.
pub fn nth_of<A: Lazy + Drop>(
    alloc: Global,
    mut lazy: A,
    number: u64,
    to: i64,
) -> Result<NthDay, NoMemory>
    requires unasked { IsUnasked (A.position lazy) }
    requires knows { (sets : List (List ℕ)) → A.knows lazy sets }
    requires some { 1 ≤ number }
    requires low { IsFromYearOne to }
    requires high { to ≤ℤ latest_day }
    ensures { IfOk result (IsNthDayOf (A.tree lazy) number to) }
{
    let mut sets = SetTable::new(alloc);
    let mut left = number;
    'days: loop {
        match lazy.next(alloc, &mut sets, to)? {
            None => return Ok(NthDay::Beyond(left)),
            Some(found) => {
                let count = found.count as u64;
                if left <= count {
                    return Ok(NthDay::On(found.day));
                }
                left -= count;
            }
        }
    }
}
