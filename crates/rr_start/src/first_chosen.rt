// The first moment that a rule chooses after its start.
ghost use Rattle.std.specs.Prelude.{◌≡◌, false, IfOk};
ghost use Rattle.rr_model.specs.Moment.Years.{IsInYears};
ghost use Rattle.rr_model.specs.Rule.Chosen.{is_chosen};
ghost use Rattle.rr_model.specs.Rule.Validity.{IsValidRule};
ghost use Rattle.rr_start.specs.Search.{IsFirstUpTo};

use crate::first_second::first_second;
use rr_model::{Kind, NoMemory, Rule, day_part, moment_at};
use rr_walk::RuleLazy;
use std::alloc::Global;

// The first moment that a rule chooses after a start that it does not choose, looked for up to a last moment; both are day
// numbers in kind `Days`, and second numbers in kind `Moments`. UNTIL and COUNT are not asked.
pub(crate) fn first_chosen(
    alloc: Global,
    rule: &Rule,
    kind: Kind,
    start: i64,
    last: i64,
) -> Result<Option<i64>, NoMemory>
    requires valid { IsValidRule kind rule.now }
    requires start { IsInYears kind start }
    requires last { IsInYears kind last }
    requires off { is_chosen rule.now kind start start ≡ false }
    ensures { IfOk result (IsFirstUpTo rule.now kind start last) }
{
    let lazy = RuleLazy::new(alloc, rule, kind, start)?;
    match first_second(alloc, lazy, day_part(kind, last))? {
        None => Ok(None),
        Some(found) => {
            let first = moment_at(kind, found.day, found.second);
            if first <= last {
                Ok(Some(first))
            } else {
                Ok(None)
            }
        }
    }
}
